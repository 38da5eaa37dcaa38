//! An input: what was loaded from the bundle that a source gives, or why there is nothing to run.
//!
//! `read_loaded` reads a source to its end, and loads the bundle that its bytes spell. Each cause of a refusal is exact: the
//! source failed, the input is longer than 64 MiB, its bytes are no bundle, or its bundle cannot be loaded; only want of memory
//! may come at any time. The line of each refusal and the statuses of a command
//! (`Status`) stand here too, since both programs have the same.
//!
//! Not inside: the format (`sb_bundle`), loading (`sb_load`), and what a program writes of what was loaded.
//!
//! ```text
//! let loaded = read_loaded(alloc, &mut source)?;                 // or InputRefusal::Bundle(Short { at: 0 })
//! bundle_line(alloc, BundleRefusal::Short { at: 0 })             // bundle Short 0
//! ```
#![tactic(auto)]

mod input;
mod lines;
mod status;

pub use input::{INPUT_LIMIT, InputRefusal, read_loaded};
pub use lines::{
    READ_FAULT_LINE, TOO_LONG_LINE, bundle_line, load_line, refuse, refuse_by, write_line,
};
pub use status::Status;
