//! A call of each public item that other programs rely on, by its path and at its signature, so
//! that none is lost when code moves between crates. Most items are hardly tested here: what an
//! item promises is proved where it is defined.

mod board_tests;
mod law_tests;
mod memory;
mod record_tests;
mod refusal_tests;
mod rules_tests;
mod session_tests;
mod text_tests;
mod usi_tests;
