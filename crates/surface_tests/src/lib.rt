//! The tests of the public surface of the libraries of records, archives and sessions: each public
//! item named once, and what their calls answer, as another crate makes them. In this folder this
//! runs those of archives without proofs:
//!
//! ```text
//! rt try --test -- archive
//! ```
#![tactic(auto)]

#[cfg(test)]
mod archive;
#[cfg(test)]
mod items;
#[cfg(test)]
mod record;
#[cfg(test)]
mod session;
