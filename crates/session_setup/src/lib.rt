//! What the sessions of the program `shogi` need before they begin, and why one fails.
//!
//! - [`paths`] says whether the files of a plan of `play` go together.
//! - [`login`] reads the name and the password.
//! - [`out_file`] writes a file that is replaced once its new text is whole, on a [`disk`].
//! - [`starting`] starts programs, and [`groups`] makes one the leader of a group, and ends the
//!   group.
//! - [`reading`] reads files and the environment, and writes nothing.
//!
//! They know no bridge. `session_commands` calls them:
//!
//! ```text
//! session_setup::paths::check(&plan)?;
//! let login = login_of(alloc, &RuntimeSecrets::new(&rt), &plan)?;
//! let place = Named::new(alloc, LocalDisk::new(&rt), plan.out);
//! ```
#![tactic(auto)]

pub mod disk;
mod fault;
pub mod groups;
pub mod login;
pub mod out_file;
pub mod paths;
mod plan_fault;
pub mod port;
pub mod reading;
pub mod starting;

pub use fault::{LoginFault, MatchFault, PlayCommandFault, ServeFault, TalkFault, memory_or};
pub use groups::SearchPath;
pub use plan_fault::{Needed, PlanFault, Written};
