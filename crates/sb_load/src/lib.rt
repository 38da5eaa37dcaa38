//! The loader: whether a machine can be started from a bundle.
//!
//! `load` answers for every bundle of the format, exactly. It refuses, in this order: the first process whose text cannot
//! be rewritten, with the cause (`LoadRefusal::Process`); the first core whose entry is no start of an instruction
//! (`BadEntry`); and a bundle with fewer frames than it takes (`NoFrames`). No bundle has two answers (`one_answer`).
//!
//! `Loaded` owns a copy of the bundle, and for each process its rewritten text. To contracts it is `Load`: the bundle,
//! and what rewriting gave; `specs/FirstState.antt` defines the state that it starts, which has no more threads than the
//! page tables serve (`starts_have_few_threads`). Not inside: the bundle's format (`sb_bundle`), how a text is rewritten
//! (`sb_rewrite`), and the machine.
//!
//! ```text
//! let loaded = load(alloc, &bundle)?;                // or NoFrames { need: 25, have: 24 }, written "frames 25 24"
//! loaded.rewritten(0).is_start(0x40_0005)            // may process 0 begin there?
//! ```
#![tactic(auto)]

mod entries;
mod laws;
mod loaded;
mod loading;
mod need;
mod refusal;

pub use laws::{one_answer, starts_have_few_threads};
pub use loaded::Loaded;
pub use loading::load;
pub use refusal::LoadRefusal;
