//! Numbers at a size, and what each operation gives on two of them.
//!
//! Promised: `operation_outcome` gives the number and the flags that the SDM gives for the operation, for every operation,
//! size, pair of numbers and flags before it (`specs/Outcome.antt`).
//!
//! Inside: the sizes of operands; sums, differences, products and logic with their flags; shifts by any count; and the
//! operations by name. Not inside: where the numbers come from, and where the result goes.
//!
//! Where the SDM leaves a value open, these choose. IMUL keeps ZF and PF. A shift by more than 1 clears OF. BSF changes no
//! flag but ZF, and of 0 gives no number. AF is not kept. A shift's count is modulo the number of bits, which is the SDM's
//! rule at 32 and 64 bits; no instruction of the opcode maps shifts a byte.
//!
//! ```text
//! sum_outcome(Size::Byte, 0xFF, 1)                                 // 0, with CF and ZF set
//! // 0x40, with CF set: the count is 33 modulo 32
//! operation_outcome(Operation::ShiftRight, Size::Doubleword, 0x81, 33, flags)
//! ```
#![tactic(auto)]

mod arithmetic;
mod operation;
mod outcome;
mod shift;
mod size;

pub use arithmetic::{difference_outcome, sum_of, sum_outcome};
pub use operation::{Operation, OperationOutcome};
pub use outcome::operation_outcome;
pub use size::Size;
