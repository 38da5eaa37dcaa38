//! The Subkernel: processes with their page tables, and the system calls of their threads.
//!
//! Inside: what is kept (`process`, `sub_kernel`), the start of a loaded bundle (`start`), and the system calls: register
//! (`register`), bind (`bind`) and protect (`protect`, over the `heap` that the tables show), with what each leaves in
//! registers (`registers`) and answers (`answer`). `specs/StandsFor` says when it stands for a state of plain memory; from that
//! state each call has the outcome of its definition. Not inside: how tables and pages are built and added (`sb_mapping`), the
//! root kernel's views (`sb_root`), which calls are refused (`sb_calls`), and instructions.
//!
//! ```text
//! let mut kernel = SubKernel::new(alloc, &loaded, &mut memory, &mut book, &mut root)?;
//! kernel.serve(&mut memory, &mut book, &mut root, 0, 0, &mut regs)      // a bind: Back { number: 3, answer: 0 }
//! ```
#![tactic(auto)]

mod answer;
mod bind;
mod heap;
mod laws;
mod process;
mod protect;
mod register;
mod registers;
mod start;
mod sub_kernel;

pub use answer::Answer;
pub use laws::{servers_are_carried, translations_are_kept, what_is_stood_for_is_shown};
pub use process::Process;
pub use sub_kernel::{Seat, SubKernel};
