//! A book that threads share: a machine with the journal of its steps, changed only under a lock.
//!
//! Steps are made at one taking of the lock, together with their entries of the journal and their lines: one step of a core, or a
//! block of them that a worker has made on copies of frames outside the lock, if all that it read still holds. So whenever the
//! lock is free the book's lines are those of the plain machine under its journal, none of them is `idle`, and the machine, which
//! is the one with page tables, stands for the last state of that run. Two ledgers of `std::sync::ledger` carry what workers know
//! out of the lock: each has a `Share` of them, with the entries that it made and a stop unit once it found nothing left to
//! do. When the workers have joined, `audit` shows that every thread has ended or the journal is full, and that the journal has
//! as many entries as the workers made.
//!
//! Inside: `History` (a machine with its journal, for one thread), `Book` and `Share`, `Gate` (what a worker calls outside the
//! lock), `Workbench` (the copies of a worker, on which it makes blocks), `work` (a worker), and `history_by_threads` (a worker for
//! each core, each on a thread of its own). Nothing is said of progress, of time, or of which core goes next. Not inside: a step
//! (`sb_machine`), blocks (`sb_block`), and the text that is written.
//!
//! ```text
//! let history = history_by_threads(&rt, alloc, loaded, 100, 8, &OpenGate)?;      // at most 100 steps
//! history.journal()                                                            // the cores in the order of their steps
//! ```
#![tactic(auto)]

mod book;
mod commit;
mod flight;
mod history;
mod same;
mod share;
mod steps;
mod threads;
mod workbench;
mod worker;

pub use book::{Book, Task};
pub use commit::CommitRefusal;
pub use history::History;
pub use share::Share;
pub use threads::history_by_threads;
pub use workbench::Workbench;
pub use worker::{Gate, OpenGate, work};
