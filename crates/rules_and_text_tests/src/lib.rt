//! The tests of the board, the rules, the cutter, the texts of CSA and USI, and lines from `#`:
//! public calls as another crate makes them. A crate with tests is proved twice, and each crate
//! must load those below it, so the tests of several crates are together. In this folder
//! this runs those of the texts without proofs:
//!
//! ```text
//! rt try --test -- text
//! ```
#![tactic(auto)]

#[cfg(test)]
mod hash_lines;
#[cfg(test)]
mod rules;
#[cfg(test)]
mod text;
