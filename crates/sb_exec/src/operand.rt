//! The fields of an instruction as numbers, and registers at a size.

ghost use Rattle.std.specs.Prelude.{◌≡◌, ◌<◌};
ghost use Rattle.sb_alu.specs.Size.{modulus};
ghost use Rattle.sb_exec.specs.Operand.{
  rm_number,
  operand_size,
  next_rip,
  register_value,
  with_register,
  operand_value,
  register_after_write,
  IsPlace,
};

use crate::action::Location;
use sb_alu::Size;
use sb_insn::{Insn, Regs, modrm_of, register_number, rex_b, rex_w, rm_field};

// ---- fields

/// The register that rm names.
pub fn rm_number(insn: &Insn) -> usize
    ensures value { result ≡ rm_number insn.now }
    ensures range { result < 16 }
{
    usize::from(register_number(rm_field(modrm_of(insn)), rex_b(insn.rex)))
}

/// 64 bits with REX.W, else 32.
pub fn operand_size(insn: &Insn) -> Size
    ensures { result ≡ operand_size insn.now }
{
    if rex_w(insn.rex) == 1 {
        Size::Quadword
    } else {
        Size::Doubleword
    }
}

// ---- the next instruction

/// The address of the next instruction.
pub fn next_rip(insn: &Insn, regs: &Regs) -> u64
    ensures { result ≡ next_rip insn.now regs.now }
{
    regs.rip.wrapping_add(insn.length() as u64)
}

// ---- registers at a size

/// The lowest bits of a register.
pub fn register_value(size: Size, number: usize, regs: &Regs) -> u64
    requires { number < 16 }
    ensures value { result ≡ register_value size number regs.now }
    ensures range { result < modulus size }
{
    size.low(regs.general[number])
}

/// What a register holds after a value is written to it: 32 bits clear its upper half (SDM volume 1, section 3.4.1.1).
#[tactic(auto, unfolding(crate::specs::Operand::register_after_write))]
fn register_after_write(size: Size, old: u64, value: u64) -> u64
    ensures { result ≡ register_after_write size old value }
{
    match size {
        Size::Byte => old / 0x100 * 0x100 + value % 0x100,
        Size::Doubleword => value % 0x1_0000_0000,
        Size::Quadword => value,
    }
}

/// Writes a value to a register.
pub fn set_register(size: Size, number: usize, value: u64, regs: &mut Regs)
    requires { number < 16 }
    ensures { regs.new ≡ with_register size number value regs.old }
{
    regs.general[number] = register_after_write(size, regs.general[number], value);
}

/// The value of an operand, whose bytes were loaded if it is in memory.
pub fn operand_value(size: Size, place: Location, regs: &Regs, loaded: u64) -> u64
    requires { IsPlace place }
    ensures value { result ≡ operand_value size place regs.now loaded }
    ensures range { result < modulus size }
{
    match place {
        Location::Register(number) => register_value(size, number, regs),
        Location::Memory(_) => size.low(loaded),
    }
}
