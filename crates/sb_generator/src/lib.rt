//! The bundle that is generated from a number, and the summary of its run.
//!
//! `gen_bundle` makes the bundle (docs/FORMATS.md, "Generated bundles"): three servers, five clients that call them, and a
//! random schedule of eight cores, all drawn from the number. The loader accepts each of them, which is the law
//! `generated_is_loadable`, so `load_generated` gives what is loaded or lacks memory. `summary_text` counts the lines of a
//! run. Not inside: the format of bundles (`sb_bundle`), the loader (`sb_load`), and the run (`sb_plain`).
//!
//! ```text
//! let loaded = load_generated(alloc, 42)?;
//! summary_text(alloc, 42, &lines, &end)?;            // gen 42, step 53741, print 1309, ..
//! ```
#![tactic(auto)]

mod generator;
mod loading;
mod summary;

pub use generator::{gen_bundle, generated_is_loadable};
pub use loading::load_generated;
pub use summary::summary_text;
