//! Which entries of an archive contain the same game.
//!
//! [`Archive`] is a list of entries, each of which can be read again and again, such as the files
//! of a folder. [`group`] says of each entry which group it is in. If no reading fails and each
//! entry gives the same bytes each time, two are in one group exactly if they contain the same
//! game, or, by [`Likeness::Moves`], the same start and moves. [`copies`] lists the groups that
//! have two entries or more.
//!
//! ```text
//! let placings = group(alloc, &mut archive, Likeness::Game, &mut watch)?;
//! for copy in copies(alloc, &placings)? { .. }
//! ```
#![tactic(auto)]

mod archive;
mod digester;
mod grouping;
mod keys;
mod listing;

pub use archive::{Archive, Watch};
pub use digester::{Digester, Sha256Digester};
pub use grouping::{Placing, group, group_by};
pub use listing::copies;
pub use record_game::Likeness;
