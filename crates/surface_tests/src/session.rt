//! The tests of `shogi_session` with allocations refused. The answers of its machines are in the
//! rows of `session_rows`, and each of its laws is called in `items`.

mod growth_tests;
