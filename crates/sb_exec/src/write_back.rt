//! The operands of a form, and where its result goes.

ghost use Rattle.std.specs.Prelude.{◌≡◌, ◌<◌};
ghost use Rattle.sb_alu.specs.Size.{modulus};
ghost use Rattle.sb_exec.specs.Operand.{IsPlace};
ghost use Rattle.sb_exec.specs.WriteBack.{
  regs_at_next,
  write_result,
  stored_in,
  rm_value,
  destination,
  first_operand,
  last_operand,
  result_or_nothing,
  form_outcome,
  compute_result,
};

use crate::action::Location;
use crate::address::rm_location;
use crate::operand::{next_rip, operand_value, register_value, set_register};
use sb_alu::{Operation, OperationOutcome, Size, operation_outcome};
use sb_insn::registers::{RAX, RCX};
use sb_insn::{Insn, OperandForm, Regs, opcode_number, reg_number};

/// Sets RIP to the next instruction.
pub fn set_at_next(insn: &Insn, regs: &mut Regs)
    ensures { regs.new ≡ regs_at_next insn.now regs.old }
{
    regs.rip = next_rip(insn, regs);
}

/// Writes a value to a place, where that is a register.
#[tactic(auto, unfolding(crate::specs::WriteBack::write_result))]
pub fn set_place(size: Size, place: Location, value: u64, regs: &mut Regs)
    requires { IsPlace place }
    ensures { regs.new ≡ (write_result size place value regs.old).regs }
{
    match place {
        Location::Register(number) => set_register(size, number, value, regs),
        Location::Memory(_) => {}
    }
}

/// What is stored of a value that is written to a place.
pub fn stored_in(place: Location, value: u64) -> u64
    ensures { result ≡ stored_in place value }
{
    match place {
        Location::Register(_) => 0,
        Location::Memory(_) => value,
    }
}

// ---- operands

/// The operand that ModRM names by mod and rm.
pub fn rm_value(size: Size, insn: &Insn, regs: &Regs, loaded: u64) -> u64
    ensures value { result ≡ rm_value size insn.now regs.now loaded }
    ensures range { result < modulus size }
{
    operand_value(size, rm_location(insn, regs), regs, loaded)
}

/// Where the result goes: the accumulator where the form names no place.
#[tactic(auto, unfolding(crate::specs::WriteBack::destination))]
fn destination(form: OperandForm, insn: &Insn, regs: &Regs) -> Location
    ensures value { result ≡ destination form insn.now regs.now }
    ensures range { IsPlace result }
{
    match form {
        OperandForm::RmReg
        | OperandForm::RmImm
        | OperandForm::RmCount
        | OperandForm::RmCl
        | OperandForm::Rm => rm_location(insn, regs),
        OperandForm::RegRm | OperandForm::RegRmImm => Location::Register(usize::from(reg_number(
            insn,
        ))),
        OperandForm::OpcodeImm | OperandForm::Opcode => Location::Register(usize::from(usize::from(
            opcode_number(insn),
        ))),
        OperandForm::AccImm | OperandForm::Imm | OperandForm::Relative | OperandForm::Nothing =>
            Location::Register(RAX),
    }
}

/// The first number of an operation.
#[tactic(auto, unfolding(crate::specs::WriteBack::first_operand))]
fn first_operand(form: OperandForm, size: Size, insn: &Insn, regs: &Regs, loaded: u64) -> u64
    ensures value { result ≡ first_operand form size insn.now regs.now loaded }
    ensures range { result < modulus size }
{
    match form {
        OperandForm::RegRmImm => rm_value(size, insn, regs, loaded),
        OperandForm::RmReg
        | OperandForm::RegRm
        | OperandForm::RmImm
        | OperandForm::AccImm
        | OperandForm::OpcodeImm
        | OperandForm::RmCount
        | OperandForm::RmCl
        | OperandForm::Rm
        | OperandForm::Opcode
        | OperandForm::Imm
        | OperandForm::Relative
        | OperandForm::Nothing => {
            operand_value(size, destination(form, insn, regs), regs, loaded)
        }
    }
}

/// The last operand of a form. A relative one is the address that lies so far from the next instruction.
#[tactic(auto, unfolding(crate::specs::WriteBack::last_operand))]
pub fn last_operand(form: OperandForm, size: Size, insn: &Insn, regs: &Regs, loaded: u64) -> u64
    ensures value { result ≡ last_operand form size insn.now regs.now loaded }
    ensures range { result < modulus size }
{
    match form {
        OperandForm::RmReg => register_value(size, usize::from(reg_number(insn)), regs),
        OperandForm::RegRm | OperandForm::Rm => rm_value(size, insn, regs, loaded),
        OperandForm::RmImm
        | OperandForm::AccImm
        | OperandForm::OpcodeImm
        | OperandForm::RegRmImm
        | OperandForm::Imm => size.low(insn.imm.value()),
        OperandForm::RmCount => Size::Byte.low(insn.imm.value()),
        OperandForm::RmCl => register_value(Size::Byte, RCX, regs),
        OperandForm::Opcode => register_value(size, usize::from(opcode_number(insn)), regs),
        OperandForm::Relative => size.low(next_rip(insn, regs).wrapping_add(insn.imm.value())),
        OperandForm::Nothing => 0,
    }
}

// ---- write back

/// Writes a result back, if there is one and it goes to a register.
#[tactic(auto, unfolding(crate::specs::WriteBack::result_or_nothing))]
fn set_result_or_nothing(size: Size, place: Location, value: Option<u64>, regs: &mut Regs)
    requires { IsPlace place }
    ensures { regs.new ≡ (result_or_nothing size place value regs.old).regs }
{
    match value {
        Some(value) => set_place(size, place, value, regs),
        None => {}
    }
}

/// What an operation on the operands of a form gives.
fn form_outcome(
    operation: Operation,
    form: OperandForm,
    size: Size,
    insn: &Insn,
    regs: &Regs,
    loaded: u64,
) -> OperationOutcome
    ensures { result ≡ form_outcome operation form size insn.now regs.now loaded }
{
    let first = first_operand(form, size, insn, regs, loaded);
    let last = last_operand(form, size, insn, regs, loaded);
    operation_outcome(operation, size, first, last, regs.flags)
}

/// Sets the registers after an operation on the operands of a form, whose result is written back.
#[tactic(auto, unfolding(crate::specs::WriteBack::compute_result))]
pub fn set_compute_result(
    operation: Operation,
    form: OperandForm,
    size: Size,
    insn: &Insn,
    regs: &mut Regs,
    loaded: u64,
)
    ensures { regs.new ≡ (compute_result operation form size insn.now regs.old loaded).regs }
{
    let place = destination(form, insn, regs);
    let outcome = form_outcome(operation, form, size, insn, regs, loaded);
    set_at_next(insn, regs);
    regs.flags = outcome.flags;
    set_result_or_nothing(size, place, outcome.value, regs);
}

/// The number that is stored of the result of an operation on the operands of a form.
#[tactic(auto, using(crate::proofs::StoredNumber::result_stored), unfolding(crate::specs::WriteBack::compute_result))]
pub fn stored_compute_result(
    operation: Operation,
    form: OperandForm,
    size: Size,
    insn: &Insn,
    regs: &Regs,
    loaded: u64,
) -> u64
    ensures { result ≡ (compute_result operation form size insn.now regs.now loaded).stored }
{
    let outcome = form_outcome(operation, form, size, insn, regs, loaded);
    stored_in(destination(form, insn, regs), outcome.value.unwrap_or(0))
}
