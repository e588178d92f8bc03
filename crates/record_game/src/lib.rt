//! Defines the games that CSA records contain: their parts and limits, why a record is refused, the
//! canonical text, and the laws of these.
//!
//! The format is CSA V2.2, as `docs/CSA.md` restricts it. The crate has little code: the faults,
//! and a law for each property that the definitions in `specs/` must have. `csa_record` reads and
//! writes by these definitions. A fault prints as the documents name it:
//!
//! ```text
//! let refusal = Refusal { number: 4, offset: 28, why: Why::Order(OrderFault::RepeatedTurn) };
//! // prints `statement 4, offset 28: G8 RepeatedTurn`
//! ```
#![tactic(auto)]

mod fault;
pub mod laws;
mod likeness;

pub use fault::{OrderFault, Refusal, Why};
pub use likeness::Likeness;
