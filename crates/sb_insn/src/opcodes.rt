//! What the opcode maps say of an opcode: the tables of cells, and a line for each opcode that a group has (SDM volume 2,
//! tables A-2, A-3 and A-6).
//!
//! A processor runs more than stands here. Left out are, beside whole instructions: AH, CH, DH and BH; REX before `68`,
//! `6A`, `90`, `C3`, direct jumps and calls, SYSCALL, UD2, VMFUNC and ENDBR64; a second REX byte; `0F 1F` /1 to /7; `C1`
//! and `D3` /6; `F7` /1 and /5.

ghost use Rattle.std.specs.Prelude.{◌≡◌};
ghost use Rattle.sb_insn.specs.OpcodeMap.{one_byte, two_byte, cell_of, lockable, not_lockable};
ghost use Rattle.sb_insn.specs.Groups.{group_operand, modrm_opcode};

use crate::cells::{ENDBR64, ONE_BYTE, TWO_BYTE, VMFUNC};
use crate::insn::Op;
use crate::opcode_map::Mnemonic::{
    Add, And, Call, Cmp, Dec, Inc, Jmp, Mov, Neg, Nop, Not, Or, Push, Sar, Shl, Shr, Sub, Test, Xor,
};
use crate::opcode_map::OperandForm::RmImm;
use crate::opcode_map::{
    Cell, Group, ImmRule, Instruction, Mnemonic, ModRmOpcode, OperandForm, RmRule,
};

/// rm is a destination: LOCK may stand where it names memory.
const fn lockable(mnemonic: Mnemonic, form: OperandForm, imm: ImmRule) -> ModRmOpcode
    ensures { result ≡ lockable mnemonic form imm }
{
    ModRmOpcode {
        lock: true,
        rm: RmRule::Any,
        byte_reg: false,
        byte_rm: false,
        imm,
        instruction: Instruction { mnemonic, form },
    }
}

/// LOCK may not stand.
const fn not_lockable(mnemonic: Mnemonic, form: OperandForm, imm: ImmRule) -> ModRmOpcode
    ensures { result ≡ not_lockable mnemonic form imm }
{
    ModRmOpcode {
        lock: false,
        rm: RmRule::Any,
        byte_reg: false,
        byte_rm: false,
        imm,
        instruction: Instruction { mnemonic, form },
    }
}

/// The cell of an opcode of the one-byte map.
#[inline(always)]
fn one_byte(opcode: u8) -> Cell
    ensures { result ≡ one_byte opcode }
{
    ONE_BYTE[opcode as usize]
}

/// The cell of an opcode of the two-byte map, behind 0F.
#[inline(always)]
fn two_byte(opcode: u8) -> Cell
    ensures { result ≡ two_byte opcode }
{
    TWO_BYTE[opcode as usize]
}

/// What the opcode maps say of an opcode.
#[inline(always)]
pub fn cell_of(op: Op) -> Cell
    ensures { result ≡ cell_of op }
{
    match op {
        Op::One(opcode) => one_byte(opcode),
        Op::Two(opcode) => two_byte(opcode),
        Op::Endbr => ENDBR64,
        Op::Vmfunc => VMFUNC,
    }
}

/// What a reg field makes of an opcode of the group, whose operands and immediate the opcode gives.
#[inline(always)]
#[tactic(auto, unfolding(crate::specs::Groups::group_operand))]
fn group_operand(group: Group, form: OperandForm, imm: ImmRule, digit: u8) -> Option<ModRmOpcode>
    ensures { result ≡ group_operand group form imm digit }
{
    match (group, digit) {
        (Group::Group1, 0) => Some(lockable(Add, form, imm)),
        (Group::Group1, 1) => Some(lockable(Or, form, imm)),
        (Group::Group1, 4) => Some(lockable(And, form, imm)),
        (Group::Group1, 5) => Some(lockable(Sub, form, imm)),
        (Group::Group1, 6) => Some(lockable(Xor, form, imm)),
        (Group::Group1, 7) => Some(not_lockable(Cmp, form, imm)),
        (Group::Group2, 4) => Some(not_lockable(Shl, form, imm)),
        (Group::Group2, 5) => Some(not_lockable(Shr, form, imm)),
        (Group::Group2, 7) => Some(not_lockable(Sar, form, imm)),
        (Group::Group3, 0) => Some(not_lockable(Test, RmImm, ImmRule::I32)),
        (Group::Group3, 2) => Some(lockable(Not, form, imm)),
        (Group::Group3, 3) => Some(lockable(Neg, form, imm)),
        (Group::Group5, 0) => Some(lockable(Inc, form, imm)),
        (Group::Group5, 1) => Some(lockable(Dec, form, imm)),
        (Group::Group5, 2) => Some(not_lockable(Call, form, imm)),
        (Group::Group5, 4) => Some(not_lockable(Jmp, form, imm)),
        (Group::Group5, 6) => Some(not_lockable(Push, form, imm)),
        (Group::Group11, 0) => Some(not_lockable(Mov, form, imm)),
        (Group::Group16, 0) => Some(not_lockable(Nop, form, imm)),
        _ => None,
    }
}

/// What a ModRM byte with this reg field means behind an opcode.
#[inline(always)]
pub fn modrm_opcode(cell: Cell, reg: u8) -> Option<ModRmOpcode>
    ensures { result ≡ modrm_opcode cell reg }
{
    match cell {
        Cell::Absent | Cell::NoModRm(_) => None,
        Cell::ModRm(opcode) => Some(opcode),
        Cell::Extended(group, form, imm) => group_operand(group, form, imm, reg),
    }
}
