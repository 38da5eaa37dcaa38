//! The table of instructions: which action each has (SDM volume 2, chapters 3 to 5).

ghost use Rattle.std.specs.Prelude.{◌≡◌};
ghost use Rattle.sb_exec.specs.Actions.{moved_size, condition_number, action_by, action_of};

use crate::action::{Action, Effect, Exchange};
use crate::operand::operand_size;
use sb_alu::{Operation, Size};
use sb_insn::{Insn, Mnemonic, OperandForm, instruction_of, last_opcode_byte, modrm_opcode_of};

/// The size of what MOV moves: a byte where the opcode says so.
fn moved_size(insn: &Insn) -> Size
    ensures { result ≡ moved_size insn.now }
{
    match modrm_opcode_of(insn) {
        Some(operand) => {
            if operand.byte_rm {
                Size::Byte
            } else {
                operand_size(insn)
            }
        }
        None => operand_size(insn),
    }
}

/// The condition of a jump: the lowest four bits of the opcode.
fn condition_number(insn: &Insn) -> u8
    ensures { result ≡ condition_number insn.now }
{
    last_opcode_byte(insn.op) % 16
}

/// What an instruction of this name does to operands of this form.
#[tactic(auto, unfolding(crate::specs::Actions::action_by))]
fn action_by(mnemonic: Mnemonic, form: OperandForm, insn: &Insn) -> Action
    ensures { result ≡ action_by mnemonic form insn.now }
{
    let size = operand_size(insn);
    match mnemonic {
        Mnemonic::Add => Action::Compute(Operation::Add, form, size),
        Mnemonic::Or => Action::Compute(Operation::Or, form, size),
        Mnemonic::And => Action::Compute(Operation::And, form, size),
        Mnemonic::Sub => Action::Compute(Operation::Sub, form, size),
        Mnemonic::Xor => Action::Compute(Operation::Xor, form, size),
        Mnemonic::Cmp => Action::Compute(Operation::Compare, form, size),
        Mnemonic::Test => Action::Compute(Operation::Test, form, size),
        Mnemonic::Mov => Action::Compute(Operation::Move, form, moved_size(insn)),
        Mnemonic::Movzx => Action::ZeroExtend(size),
        Mnemonic::Lea => Action::LoadAddress(size),
        Mnemonic::Not => Action::Compute(Operation::Not, form, size),
        Mnemonic::Neg => Action::Compute(Operation::Negate, form, size),
        Mnemonic::Imul => Action::Compute(Operation::Multiply, form, size),
        Mnemonic::Shl => Action::Compute(Operation::ShiftLeft, form, size),
        Mnemonic::Shr => Action::Compute(Operation::ShiftRight, form, size),
        Mnemonic::Sar => Action::Compute(Operation::ShiftArithmetic, form, size),
        Mnemonic::Inc => Action::Compute(Operation::Increment, form, size),
        Mnemonic::Dec => Action::Compute(Operation::Decrement, form, size),
        Mnemonic::Bsf => Action::Compute(Operation::ScanForward, form, size),
        Mnemonic::Xchg => Action::Exchange(Exchange::Xchg, size),
        Mnemonic::Xadd => Action::Exchange(Exchange::Xadd, size),
        Mnemonic::Cmpxchg => Action::Exchange(Exchange::Cmpxchg, size),
        Mnemonic::Push => Action::Push(form),
        Mnemonic::Pop => Action::Pop,
        Mnemonic::Jmp => Action::Jump(form),
        Mnemonic::Jcc => Action::JumpIf(condition_number(insn)),
        Mnemonic::Call => Action::Call(form),
        Mnemonic::Ret => Action::Return,
        Mnemonic::Nop | Mnemonic::Endbr64 => Action::Pass,
        Mnemonic::Syscall => Action::Stop(Effect::Syscall),
        Mnemonic::Ud2 => Action::Stop(Effect::Undefined),
        Mnemonic::Vmfunc => Action::Stop(Effect::Switch),
    }
}

/// What an instruction does; what is not in the opcode maps is undefined.
#[tactic(auto, unfolding(crate::specs::Actions::action_of))]
pub fn action_of(insn: &Insn) -> Action
    ensures { result ≡ action_of insn.now }
{
    match instruction_of(insn) {
        Some(instruction) => action_by(instruction.mnemonic, instruction.form, insn),
        None => Action::Stop(Effect::Undefined),
    }
}
