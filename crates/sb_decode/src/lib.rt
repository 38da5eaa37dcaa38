//! The decoder: the one instruction with which bytes begin.
//!
//! `decode` answers exactly by the grammar of `sb_insn`, both ways: `Ok` gives the instruction that begins the bytes
//! and its length; `Short` comes where none begins them and one begins some longer input; `Undecoded` where none does,
//! however the bytes go on. No spelling begins another (`one_spelling`), so the answer is the only one.
//!
//! The fields are read from left to right, each by a function that gives the field and the bytes behind it. Not inside:
//! what is valid (`sb_insn`), and reading from memory.
//!
//! So `31 C0 FF` gives `XOR EAX, EAX` and 2: the byte behind it is not looked at. `F0 81` is short: LOCK may stand before
//! `ADD`, and the reg field of ModRM decides. `F0 39` is undecoded: LOCK never stands before `CMP`.
#![tactic(auto)]

mod fault;
mod fields;
mod lead;
mod number;

ghost use Rattle.std.specs.Prelude.{◌≡◌, ◌<◌, ◌≤◌, length, IfOk, IsErrOf};
ghost use Rattle.sb_decode.specs.Reading.{Gives};
ghost use Rattle.sb_decode.specs.InsnReader.{parts_at, from_parts};
ghost use Rattle.sb_decode.specs.Decode.{Decodes, NoneBeginsAnother, OneBegins, SpelledApart, OneAnswer};

pub use fault::DecodeFault;
use sb_insn::{Insn, disp_kind, imm_kind_of};

/// The instruction with which the bytes begin, and its length in bytes (SDM volume 2, chapter 2).
///
/// What stands behind the instruction makes no difference.
///
/// # Errors
///
/// `Short` where no instruction begins the bytes, and one begins some longer input that begins with all of them;
/// `Undecoded` where none does, however the bytes go on.
#[inline(always)]
pub fn decode(bytes: &[u8]) -> Result<(Insn, usize), DecodeFault>
    ensures answer { Decodes bytes.now result }
    // What loops over instructions need: a length within the bytes and not 0, and Short near the end alone.
    ensures within { IfOk result (λ found. found.1 ≤ length bytes.now) }
    ensures some { IfOk result (λ found. 0 < found.1) }
    ensures short { IsErrOf result DecodeFault.Short → length bytes.now < 13 }
{
    let (insn, rest) = insn(bytes)?;
    Ok((insn, bytes.len() - rest.len()))
}

/// A law of the grammar: no spelling begins another, so bytes begin with one instruction at most, and decoding them has
/// one answer.
pub fn one_spelling()
    ensures prefix { NoneBeginsAnother }
    ensures begins { OneBegins }
    ensures spelled { SpelledApart }
    ensures answer { OneAnswer }
{}

/// The instruction, and the bytes behind it.
#[inline(always)]
#[tactic(auto, unfolding(crate::specs::InsnReader::parts_at))]
fn insn(bytes: &[u8]) -> Result<(Insn, &[u8]), DecodeFault>
    ensures { Gives result (from_parts (parts_at bytes.now)) }
{
    let ((lead, cell), rest) = lead::read(bytes)?;
    let ((modrm, rule), rest) = fields::modrm(cell, lead, rest)?;
    let (sib, rest) = fields::sib(modrm, rest)?;
    let (disp, rest) = fields::disp(disp_kind(modrm, sib), rest)?;
    let (imm, rest) = fields::imm(imm_kind_of(rule, lead.rex), rest)?;
    let insn = Insn {
        lock: lead.lock,
        rex: lead.rex,
        op: lead.op,
        modrm,
        sib,
        disp,
        imm,
    };
    Ok((insn, rest))
}
