//! Where the operand is that ModRM names (SDM volume 2, tables 2-2 and 2-3).

ghost use Rattle.std.specs.Prelude.{◌≡◌, ◌<◌};
ghost use Rattle.sb_exec.specs.Operand.{IsPlace};
ghost use Rattle.sb_exec.specs.Address.{
  sib_of,
  index_number,
  base_number,
  scaled_index,
  sib_base,
  disp_value,
  base_value,
  operand_address,
  rm_location,
};

use crate::action::Location;
use crate::operand::{next_rip, rm_number};
use sb_insn::{
    Disp, Insn, Regs, base, index, mod_field, modrm_of, register_number, rex_b, rex_x, rm_field,
    scale,
};
use sb_memory::Linear;

// ---- the SIB byte

/// The SIB byte, 0 where there is none.
fn sib_of(insn: &Insn) -> u8
    ensures { result ≡ sib_of insn.now }
{
    insn.sib.unwrap_or(0)
}

/// The register that index names; 4 is no index.
fn index_number(insn: &Insn) -> usize
    ensures value { result ≡ index_number insn.now }
    ensures range { result < 16 }
{
    usize::from(register_number(index(sib_of(insn)), rex_x(insn.rex)))
}

/// The register that base names.
fn base_number(insn: &Insn) -> usize
    ensures value { result ≡ base_number insn.now }
    ensures range { result < 16 }
{
    usize::from(register_number(base(sib_of(insn)), rex_b(insn.rex)))
}

/// The index times 1, 2, 4 or 8.
fn scaled_index(insn: &Insn, regs: &Regs) -> u64
    ensures { result ≡ scaled_index insn.now regs.now }
{
    let number = index_number(insn);
    if number == 4 {
        0
    } else {
        regs.general[number] << scale(sib_of(insn))
    }
}

/// The base; with mod 0 a base field of 5 is no base.
fn sib_base(insn: &Insn, regs: &Regs) -> u64
    ensures { result ≡ sib_base insn.now regs.now }
{
    if mod_field(modrm_of(insn)) == 0 && base(sib_of(insn)) == 5 {
        0
    } else {
        regs.general[base_number(insn)]
    }
}

// ---- the address

/// The displacement, sign-extended to 64 bits.
fn disp_value(disp: Disp) -> u64
    ensures { result ≡ disp_value disp }
{
    match disp {
        Disp::None => 0,
        Disp::D8(value) => i64::from(value).cast_unsigned(),
        Disp::D32(value) => i64::from(value).cast_unsigned(),
    }
}

/// What the displacement is added to.
fn base_value(insn: &Insn, regs: &Regs) -> u64
    ensures { result ≡ base_value insn.now regs.now }
{
    let rm = rm_field(modrm_of(insn));
    if mod_field(modrm_of(insn)) == 0 && rm == 5 {
        next_rip(insn, regs)
    } else if rm == 4 {
        sib_base(insn, regs).wrapping_add(scaled_index(insn, regs))
    } else {
        regs.general[rm_number(insn)]
    }
}

/// The address of the memory operand.
#[tactic(auto, unfolding(crate::specs::Address::operand_address))]
pub fn operand_address(insn: &Insn, regs: &Regs) -> u64
    ensures { result ≡ operand_address insn.now regs.now }
{
    base_value(insn, regs).wrapping_add(disp_value(insn.disp))
}

/// The operand that ModRM names: mod 3 names a register, any other memory.
#[tactic(auto, unfolding(crate::specs::Address::rm_location))]
pub fn rm_location(insn: &Insn, regs: &Regs) -> Location
    ensures value { result ≡ rm_location insn.now regs.now }
    ensures range { IsPlace result }
{
    if mod_field(modrm_of(insn)) == 3 {
        Location::Register(rm_number(insn))
    } else {
        Location::Memory(Linear(operand_address(insn, regs)))
    }
}
