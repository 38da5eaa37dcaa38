//! The plain machine: separate memories, and one step at a time.
//!
//! `Plain::new` is the machine that a loaded bundle starts: the pages of its processes and threads, the two pages of the
//! trampoline, and a thread for each core. It has room for a page for each free frame, so no step takes memory. `step` runs
//! one instruction of a core's thread and says what happened, `ended` says whether that thread has ended, `end` how everything
//! stands. To contracts the machine is the `State` of `sb_state`, and start, step and end are equal to their definitions:
//! `first_state`, `Steps` of `sb_trace`, and its `end_of`.
//!
//! Inside: the start (`start`), an instruction (`instruction`), a step (`step`), the end (`end`); and the kernel: faults and
//! the way home (`home`), calls and returns through VMFUNC (`call`) and the landing that stands for them (`flight`), what a
//! process is as a server (`pool`), and system calls (`system_call`). Not inside: the state and its memory (`sb_state`), what
//! instructions mean (`sb_exec`), which bundles can be loaded (`sb_load`), and the text of the report (`sb_trace`).
//!
//! ```text
//! let mut plain = Plain::new(alloc, &loaded)?;
//! let line = plain.step(0);                  // 0 step 400000
//! let end = plain.end(alloc)?;
//! ```
#![tactic(auto)]

mod call;
mod end;
mod fault;
mod flight;
mod instruction;
mod laws;
mod plain;
mod server;
mod start;
mod step;
mod system_call;

pub use laws::loads_have_sound_starts;
pub use plain::Plain;
