//! Reads CSA records, whole or in pieces, and writes the canonical text of their games.
//!
//! The format is CSA V2.2, as `docs/CSA.md` restricts it. `read` takes a source that lies in
//! memory, `RecordReader` one that arrives in pieces. Both return a `Record`, which is always a
//! legal game, or a `Refusal` that names the first statement with a fault. `read_from` takes any
//! byte source, a `SourceReader` one after another, and `normalise` goes from a source straight to
//! a sink. The faults and the laws are those of `record_game`, and are re-exported.
//!
//! ```text
//! let game = read(alloc, source)?;
//! let text = write(alloc, &game)?;
//! // two records have the same text exactly if their games are the same
//! ```
#![tactic(auto)]

mod builder;
mod course;
mod flow;
pub mod laws;
mod laying;
mod pieces;
mod record;
mod record_reader;
mod sink;
mod source;
mod source_reader;
mod start_writer;
mod titles;
mod writer;

pub use flow::{FlowFault, MOST_READS, PIECE, digest, normalise, read_from};
pub use pieces::read_pieces;
pub use record::Record;
pub use record_game::{OrderFault, Refusal, Why};
pub use record_reader::{Failing, RecordReader, read};
pub use sink::{Sink, Writing, write_uninterrupted};
pub use source::{Failure, Reading, Source, read_uninterrupted};
pub use source_reader::SourceReader;
pub use titles::{HeaderValue, MAX_HEADERS};
pub use writer::write;
