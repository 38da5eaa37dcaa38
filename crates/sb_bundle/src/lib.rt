//! Bundles: all that a machine is started from, as bytes.
//!
//! `read_bundle` gives the bundle that the bytes spell, or the first refusal in the order of fields, with its offset.
//! `write_bundle` gives the one spelling of a bundle, and reading that gives the same bundle (`specs/Spelling.antt` is the
//! format, `specs/Limits.antt` its limits, `specs/Reading.antt` the refusals). Not inside: whether a machine can be
//! started from the bundle, which is the loader's to say.
//!
//! No length is trusted before its bytes are there: a text and its data are copied from a slice that was cut from the input
//! before, every list grows by one element for each element that was read, and nothing is reserved by a count. How much
//! memory reading takes is in no clause.
//!
//! ```text
//! let bundle = read_bundle(alloc, &bytes)?;          // the bytes "SKYB", 1, 0, .. or BundleRefusal::Magic { at: 0 }
//! let same = write_bundle(alloc, &bundle)?;          // the same bytes
//! ```
#![tactic(auto)]

mod bundle;
mod cursor;
mod header;
mod limits;
mod reading;
mod refusal;
mod writing;

pub use bundle::{Bundle, Bytes, CoreStart, CoreStarts, Image, Images, Words};
pub use limits::{CORES, FRAMES, HEAP, INITIAL, KEYS, Limits, PROCESSES, SCHEDULE, TEXT};
pub use reading::{one_spelling, read_bundle};
pub use refusal::BundleRefusal;
pub use writing::write_bundle;
