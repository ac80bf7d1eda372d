//! Reads a trace text: from the pieces of a source to its requests, or to the first thing that it is refused for.
//!
//! `source` says what a source of bytes is and `memory` has sources over bytes in memory, `field` and `line` read
//! one line, `reader` puts the lines of a text together from pieces, and `read` is the reading of a whole text.
//! `generator` makes requests from numbers.
#![tactic(auto)]

mod field;
mod generator;
mod limits;
mod line;
mod memory;
mod plain;
mod printed;
mod read;
mod reader;
mod requests;
mod source;
mod traces;

pub use field::{content, first_field, number};
pub use generator::{Gen, generate};
pub use limits::{MAX_BYTES, MAX_KEY, MAX_REQUESTS, MAX_TRACES};
pub use memory::{MemorySource, SureSource};
pub use printed::printed_text_is_read;
pub use read::read_traces;
pub use requests::Requests;
pub use source::{Failed, Source};
pub use traces::{BadLine, TraceError, Traces};
