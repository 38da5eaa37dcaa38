//! What each operation gives.

ghost use Rattle.std.specs.Prelude.{◌≡◌, ◌<◌};
ghost use Rattle.sb_alu.specs.Size.{modulus};
ghost use Rattle.sb_alu.specs.Outcome.{
  without_value,
  keeping_carry,
  bsf_outcome,
  operation_outcome,
};

use crate::arithmetic::{difference_outcome, logic_outcome, product_outcome, sum_outcome};
use crate::operation::{Operation, OperationOutcome};
use crate::shift::{sar_by, shl_by, shr_by};
use crate::size::Size;
use sb_insn::Flags;

/// Nothing is written.
fn without_value(outcome: OperationOutcome) -> OperationOutcome
    ensures { result ≡ without_value outcome }
{
    OperationOutcome {
        value: None,
        ..outcome
    }
}

/// CF stays.
fn keeping_carry(flags: Flags, outcome: OperationOutcome) -> OperationOutcome
    ensures { result ≡ keeping_carry flags outcome }
{
    OperationOutcome {
        flags: Flags {
            cf: flags.cf,
            ..outcome.flags
        },
        ..outcome
    }
}

/// The place of the lowest bit that is set.
#[tactic(auto, unfolding(crate::specs::Outcome::bsf_outcome))]
fn bsf_outcome(value: u64, flags: Flags) -> OperationOutcome
    ensures { result ≡ bsf_outcome value flags }
{
    OperationOutcome {
        value: if value == 0 {
            None
        } else {
            Some(u64::from(value.trailing_zeros()))
        },
        flags: Flags {
            zf: value == 0,
            ..flags
        },
    }
}

/// What an operation gives on two numbers of a size, from these flags.
#[tactic(auto, unfolding(crate::specs::Outcome::operation_outcome))]
pub fn operation_outcome(
    operation: Operation,
    size: Size,
    first: u64,
    second: u64,
    flags: Flags,
) -> OperationOutcome
    requires first { first < modulus size }
    requires second { second < modulus size }
    ensures { result ≡ operation_outcome operation size first second flags }
{
    match operation {
        Operation::Add => sum_outcome(size, first, second),
        Operation::Or => logic_outcome(size, first | second),
        Operation::And => logic_outcome(size, first & second),
        Operation::Sub => difference_outcome(size, first, second),
        Operation::Xor => logic_outcome(size, first ^ second),
        Operation::Compare => without_value(difference_outcome(size, first, second)),
        Operation::Test => without_value(logic_outcome(size, first & second)),
        Operation::Move => OperationOutcome {
            value: Some(second),
            flags,
        },
        Operation::Not => OperationOutcome {
            value: Some(size.mask() - first),
            flags,
        },
        Operation::Negate => difference_outcome(size, 0, first),
        Operation::Increment => keeping_carry(flags, sum_outcome(size, first, 1)),
        Operation::Decrement => keeping_carry(flags, difference_outcome(size, first, 1)),
        Operation::Multiply => product_outcome(size, first, second, flags),
        Operation::ShiftLeft => shl_by(size, first, second, flags),
        Operation::ShiftRight => shr_by(size, first, second, flags),
        Operation::ShiftArithmetic => sar_by(size, first, second, flags),
        Operation::ScanForward => bsf_outcome(second, flags),
    }
}
