//! The machine with page tables: cores whose instructions go through the nested walk of physical memory, and the two kernels.
//!
//! A step of a core fetches the instruction at RIP and executes it, through the EPT pointer and the CR3 of that core. At a
//! SYSCALL the Subkernel serves the call, and at a fault, or a VMFUNC that the list refuses, the thread ends or is sent home. All
//! else is done by instructions, the landing of a call too: the phase of a thread in flight is read off RIP. To contracts the
//! machine is its bytes, the tables of its kernels and its cores, and a step is `Steps` of the definitions. Where it stands for a
//! state of the plain machine, the plain machine has a step with the same line, and the machine stands for the state after it.
//!
//! Steps that a core makes by itself, in which the kernels have no part, can be made elsewhere, on copies of frames. For that the
//! machine shows the state of a core and the bytes of a frame, and puts back what came out: the state behind the steps and the
//! words that they wrote.
//!
//! Inside: cores (`processor`), the machine (`machine`) and its parts
//! (`parts`), an instruction (`instruction`), what follows it (`outcome`), VMFUNC (`vmfunc`),
//! system calls (`system_call`), the start (`start`), the step (`step`), the end of a run (`end`), the dump (`dump`) with its
//! lines (`dump_lines`), what a core reads and writes (`place`), and what steps made elsewhere need (`core_state`, `frame`) and
//! how they are put back (`apply`). Not inside: the walks (`sb_nested`) and the bus of a core (`sb_core_bus`), the kernels' tables
//! (`sb_root`, `sb_sub`), what the plain machine does (`sb_trace`), and what the text of a dump determines (`sb_shows`).
#![tactic(auto)]

mod apply;
mod core_state;
mod dump;
mod dump_lines;
mod end;
mod frame;
mod instruction;
mod laws;
mod machine;
mod outcome;
mod parts;
mod phase;
mod place;
mod processor;
mod start;
mod step;
mod system_call;
mod vmfunc;

pub use laws::{own_steps_are_plain, steps_are_plain};
pub use machine::Machine;
pub use outcome::{home_state, line_by};
pub use phase::phase_behind;
pub use place::{Place, Seen, Seens};
pub use processor::{Core, CoreState, Origin};
pub use vmfunc::{home_line, regs_behind};
