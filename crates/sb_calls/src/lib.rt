//! What a kernel decides at a system call, over plain arguments.
//!
//! Inside: why register, bind and protect are refused, in the order of docs/FORMATS.md (`refusals`); the registers that a
//! call leaves (`registers`); and where the buffer of a view lies and what its record page says (`views`). Each kernel
//! calls these functions with what it knows, so that both decide alike.
//!
//! Not inside: the state of a kernel, and what a call changes in it.
//!
//! ```text
//! sb_calls::protect_refusal(4, 4, 0) == Some(CallRefusal::BadPage)    // a heap of 4 pages has pages 0 to 3
//! ```
#![tactic(auto)]

mod refusals;
mod registers;
mod views;

pub use refusals::{EXECUTE_MODE, WRITE_MODE, bind_refusal, protect_refusal, register_refusal};
pub use registers::{after_syscall, regs_after_bind, regs_with_answer, server_fault_regs};
pub use views::{buffer_address, server_record};
