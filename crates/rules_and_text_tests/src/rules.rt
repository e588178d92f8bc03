//! The tests of `shogi_board` and `shogi_rules`.

mod counting_tests;
mod judging_tests;
mod line_tests;
mod moving_tests;
mod position_tests;
mod random_play;
mod reach_tests;
mod setup_tests;
mod words;
