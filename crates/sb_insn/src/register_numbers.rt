//! The registers that the fields of an instruction name, by their numbers, 0 to 15.

ghost use Rattle.std.specs.Prelude.{◌≡◌, ◌≤◌, ◌<◌};
ghost use Rattle.sb_insn.specs.RegisterNumbers.{
  modrm_of,
  last_opcode_byte,
  register_number,
  reg_number,
  opcode_number,
  rm_number,
  base_number,
  index_number,
};

use crate::fields::{base, index, reg_field, rex_b, rex_r, rex_x, rm_field};
use crate::insn::{Insn, Op};

/// The ModRM byte, 0 where none stands.
pub fn modrm_of(insn: &Insn) -> u8
    ensures { result ≡ modrm_of insn.now }
{
    insn.modrm.unwrap_or(0)
}

/// The last byte of the opcode.
pub fn last_opcode_byte(op: Op) -> u8
    ensures { result ≡ last_opcode_byte op }
{
    match op {
        Op::One(opcode) | Op::Two(opcode) => opcode,
        Op::Endbr => 0xFA,
        Op::Vmfunc => 0xD4,
    }
}

/// The full number of a register: a field of three bits, and the bit of REX that extends it.
pub fn register_number(field: u8, extension: u8) -> u8
    requires field { field ≤ 7 }
    requires extension { extension ≤ 1 }
    ensures value { result ≡ register_number field extension }
    ensures range { result < 16 }
{
    field + 8 * extension
}

/// The register that reg names.
pub fn reg_number(insn: &Insn) -> u8
    ensures value { result ≡ reg_number insn.now }
    ensures range { result < 16 }
{
    register_number(reg_field(modrm_of(insn)), rex_r(insn.rex))
}

/// The register in the opcode.
pub fn opcode_number(insn: &Insn) -> u8
    ensures value { result ≡ opcode_number insn.now }
    ensures range { result < 16 }
{
    register_number(last_opcode_byte(insn.op) % 8, rex_b(insn.rex))
}

/// The register that rm names, if a ModRM byte stands.
pub fn rm_number(insn: &Insn) -> Option<u8>
    ensures { result ≡ rm_number insn.now.modrm insn.now.rex }
{
    Some(register_number(rm_field(insn.modrm?), rex_b(insn.rex)))
}

/// The register that the base of SIB names, if an SIB byte stands.
pub fn base_number(insn: &Insn) -> Option<u8>
    ensures { result ≡ base_number insn.now.sib insn.now.rex }
{
    Some(register_number(base(insn.sib?), rex_b(insn.rex)))
}

/// The register that the index of SIB names, if an SIB byte stands.
pub fn index_number(insn: &Insn) -> Option<u8>
    ensures { result ≡ index_number insn.now.sib insn.now.rex }
{
    Some(register_number(index(insn.sib?), rex_x(insn.rex)))
}
