//! The tests of `csa_cutting`, `csa_text` and `usi_text`.

mod comment_tests;
mod cutter_tests;
mod item_tests;
mod line_tests;
mod moment_tests;
mod piece_tests;
mod squares;
mod usi_tests;
mod writing_tests;
