//! The operations over two numbers, and what they give.

use sb_insn::Flags;

/// A function of two numbers, the destination's first, that gives a number and flags.
#[derive(Clone, Copy, Debug, PartialEq, Eq)]
pub enum Operation {
    Add,
    Or,
    And,
    Sub,
    Xor,
    /// SUB of which only the flags are kept.
    Compare,
    /// AND of which only the flags are kept.
    Test,
    Move,
    /// Each bit turned; of the first number, as the next three.
    Not,
    Negate,
    Increment,
    Decrement,
    /// The signed product.
    Multiply,
    /// The second number is the count, as in the next two.
    ShiftLeft,
    /// Zeros come in from the left.
    ShiftRight,
    /// Copies of the top bit come in from the left.
    ShiftArithmetic,
    /// The place of the lowest bit that is set in the second number.
    ScanForward,
}

/// What an operation gives.
#[derive(Clone, Copy, Debug, PartialEq, Eq)]
pub struct OperationOutcome {
    /// The number that is to be written, if one is.
    pub value: Option<u64>,
    pub flags: Flags,
}
