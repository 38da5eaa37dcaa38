//! Sources and sinks of bytes that count their faults.
//!
//! The crate promises that a transfer over any source and sink gives exactly the bytes that were there, or says why not:
//! a fault comes only where the count of faults of its device rose in the call, and after a fault of writing it is known
//! how many bytes were written. What an unfinished reading had taken is lost.
//!
//! Inside: the traits `Source` and `Sink`; one of each in memory, which fails the calls that it is told to fail;
//! adapters over std's readers and writers; and `read_all` and `write_all`, which work over any of them. Not inside:
//! formats, text, and any file or terminal.
//!
//! ```text
//! let mut source = MemorySource::new(bytes, 16, fails);    // gives at most 16 bytes a call
//! let input = read_all(alloc, &mut source, 1024)?;         // all of the bytes, or why not
//! let mut sink = WriteSink::new(io::writer(&rt));
//! write_all(&mut sink, &input)?;                           // all of them, or how many were written
//! ```
#![tactic(auto)]

mod adapters;
mod memory_sink;
mod memory_source;
mod port;
mod transfer;

pub use adapters::{ReadSource, WriteSink};
pub use memory_sink::MemorySink;
pub use memory_source::MemorySource;
pub use port::{Failed, Sink, Source};
pub use transfer::{ReadAll, WriteFault, read_all, write_all};
