//! The tests of `game_archive`, on an archive in memory.

mod growth_tests;
mod shelf;
mod tests;
mod texts;
