//! Blocks: steps of one core on copies of frames, made outside of the machine, with what they read and what they wrote.
//!
//! `Partial` is a physical memory of which some frames are there, as copies. It notes which words are read, each once, and holds
//! back what is written. `run_block` makes steps of a core over it, up to a limit, until one of them meets a frame of which there
//! is no copy or is the kernels' to do. What comes out is a `Block`: the lines of the steps, the core behind them, the words that
//! were read with the values that they had, and the words that were written. By the law `blocks_hold` it is a run of each machine
//! in which those words hold these values, whatever else has changed there since the copies were made, and the copies may come
//! from different moments.
//!
//! A block knows no process, and so no text: its lines have no marks. Beside each line stands a `Fact`, with what its mark needs.
//!
//! Inside: the step of a core over copies of frames (`one`), what is told of it (`fact`), steps one after another (`run`),
//! what they read and wrote (`collect`), blocks (`block`), and the laws (`laws`). Not inside: the copies (`sb_partial`), the
//! machine and how a block is applied to it (`sb_machine`), who decides that a block still holds, marks, and threads (`sb_book`).
//!
//! ```text
//! let mut part = Partial::new(640);
//! run_block(alloc, &mut part, 0, &machine.core_state(0), 8)      // Err(Stop::NeedFrame(frame)): a frame of the walk
//! part.give(alloc, frame, machine.frame_bytes(frame))?;          // and so on, until the answer is a block of 8 steps
//! ```
#![tactic(auto)]

mod block;
mod collect;
mod fact;
mod laws;
mod one;
mod run;

pub use block::{Block, Stop, run_block};
pub use fact::{Fact, MadeStep, MadeSteps};
pub use laws::{blocks_are_functions, blocks_hold, own_steps_are_one};
pub use one::{StepStop, step};
pub use sb_machine::{CoreState, Place, Seen, Seens};
pub use sb_partial::Partial;
