//! Which instruction of the opcode maps an `Insn` is.

ghost use Rattle.std.specs.Prelude.{◌≡◌};
ghost use Rattle.sb_insn.specs.Lookup.{named_instruction, instruction_of, modrm_opcode_in, modrm_opcode_of, ValidInMaps};

use crate::fields::reg_field;
use crate::insn::Insn;
use crate::opcode_map::{Cell, Instruction, ModRmOpcode};
use crate::opcodes::{cell_of, modrm_opcode};

/// What a cell says of this ModRM field.
#[inline(always)]
fn modrm_opcode_in(cell: Cell, modrm: Option<u8>) -> Option<ModRmOpcode>
    ensures { result ≡ modrm_opcode_in cell modrm }
{
    match modrm {
        None => None,
        Some(modrm) => modrm_opcode(cell, reg_field(modrm)),
    }
}

/// What the opcode maps say of its ModRM byte; `None` where no ModRM byte stands, or where its opcode has none or its
/// group has no such reg field.
///
/// It looks at the opcode, and at the reg field of ModRM where the opcode is of a group; the rest may be invalid.
#[tactic(auto, unfolding(crate::specs::Lookup::modrm_opcode_of))]
pub fn modrm_opcode_of(insn: &Insn) -> Option<ModRmOpcode>
    ensures { result ≡ modrm_opcode_of insn.now }
{
    modrm_opcode_in(cell_of(insn.op), insn.modrm)
}

/// The instruction of an opcode, if there is one.
#[inline(always)]
fn named_instruction(opcode: Option<ModRmOpcode>) -> Option<Instruction>
    ensures { result ≡ named_instruction opcode }
{
    match opcode {
        None => None,
        Some(opcode) => Some(opcode.instruction),
    }
}

/// Which instruction of the opcode maps it is; `None` exactly where they have none: the opcode is absent, or its group
/// has no such reg field.
///
/// It looks at the opcode, and at the reg field of ModRM where the opcode is of a group; the rest may be invalid.
#[inline(always)]
#[tactic(auto, unfolding(crate::specs::Lookup::instruction_of))]
pub fn instruction_of(insn: &Insn) -> Option<Instruction>
    ensures { result ≡ instruction_of insn.now }
{
    let cell = cell_of(insn.op);
    match cell {
        Cell::Absent => None,
        Cell::NoModRm(opcode) => Some(opcode.instruction),
        Cell::ModRm(opcode) => Some(opcode.instruction),
        Cell::Extended(..) => named_instruction(modrm_opcode_in(cell, insn.modrm)),
    }
}

/// A law of the grammar: a valid instruction is one of the opcode maps.
#[tactic(auto, using(crate::proofs::InMaps::valid_in_maps))]
pub fn valid_is_in_maps()
    ensures { ValidInMaps }
{}
