//! The fields behind the opcode: each function gives one, and the bytes behind it.

ghost use Rattle.std.specs.Prelude.{◌≡◌};
ghost use Rattle.sb_decode.specs.Reading.{Gives, GivesModRm};
ghost use Rattle.sb_decode.specs.FieldReaders.{modrm_byte, modrm_at, sib_at, disp_at, imm_at};

use crate::fault::DecodeFault;
use crate::lead::Lead;
use crate::number::{number_8, number_32, number_64};
use sb_insn::{Cell, Disp, DispKind, Imm, ImmKind, ImmRule, permitted_rule, wants_sib};

/// A ModRM byte that the opcode permits, and which immediate it wants behind the byte.
#[inline(always)]
fn modrm_byte(
    cell: Cell,
    lead: Lead,
    bytes: &[u8],
) -> Result<((Option<u8>, ImmRule), &[u8]), DecodeFault>
    ensures { GivesModRm cell result (modrm_byte cell lead.lock lead.rex bytes.now) }
{
    match bytes {
        [] => Err(DecodeFault::Short),
        [byte, rest @ ..] => match permitted_rule(cell, lead.lock, lead.rex, *byte) {
            Some(rule) => Ok(((Some(*byte), rule), rest)),
            None => Err(DecodeFault::Undecoded),
        },
    }
}

/// ModRM, where the opcode has it, and which immediate the opcode wants behind it.
#[inline(always)]
#[tactic(auto, unfolding(crate::specs::FieldReaders::modrm_at))]
pub fn modrm(
    cell: Cell,
    lead: Lead,
    bytes: &[u8],
) -> Result<((Option<u8>, ImmRule), &[u8]), DecodeFault>
    ensures { GivesModRm cell result (modrm_at cell lead.lock lead.rex bytes.now) }
{
    match cell {
        Cell::NoModRm(opcode) => Ok(((None, opcode.imm), bytes)),
        Cell::Absent | Cell::ModRm(_) | Cell::Extended(..) => modrm_byte(cell, lead, bytes),
    }
}

/// SIB, where ModRM wants it.
#[inline(always)]
#[tactic(auto, unfolding(crate::specs::FieldReaders::sib_at))]
pub fn sib(modrm: Option<u8>, bytes: &[u8]) -> Result<(Option<u8>, &[u8]), DecodeFault>
    ensures { Gives result (sib_at modrm bytes.now) }
{
    if !wants_sib(modrm) {
        return Ok((None, bytes));
    }
    match bytes {
        [] => Err(DecodeFault::Short),
        [byte, rest @ ..] => Ok((Some(*byte), rest)),
    }
}

/// The displacement.
#[inline(always)]
pub fn disp(kind: DispKind, bytes: &[u8]) -> Result<(Disp, &[u8]), DecodeFault>
    ensures { Gives result (disp_at kind bytes.now) }
{
    match kind {
        DispKind::None => Ok((Disp::None, bytes)),
        DispKind::D8 => {
            let (number, rest) = number_8(bytes)?;
            Ok((Disp::D8(number), rest))
        }
        DispKind::D32 => {
            let (number, rest) = number_32(bytes)?;
            Ok((Disp::D32(number), rest))
        }
    }
}

/// The immediate.
#[inline(always)]
pub fn imm(kind: ImmKind, bytes: &[u8]) -> Result<(Imm, &[u8]), DecodeFault>
    ensures { Gives result (imm_at kind bytes.now) }
{
    match kind {
        ImmKind::None => Ok((Imm::None, bytes)),
        ImmKind::I8 => {
            let (number, rest) = number_8(bytes)?;
            Ok((Imm::I8(number), rest))
        }
        ImmKind::I32 => {
            let (number, rest) = number_32(bytes)?;
            Ok((Imm::I32(number), rest))
        }
        ImmKind::I64 => {
            let (number, rest) = number_64(bytes)?;
            Ok((Imm::I64(number), rest))
        }
    }
}
