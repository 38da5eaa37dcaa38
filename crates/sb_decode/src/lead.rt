//! The lead of an instruction: its prefixes and its opcode.

ghost use Rattle.std.specs.Prelude.{◌≡◌, [], ◌∷◌, Bool};
ghost use Rattle.sb_decode.specs.LeadReader.{lead_of, group_locks, takes_prefixes, is_lead, checked_lead, ending, second_at, opcode_at, rex_at, lead_at};
ghost use Rattle.sb_decode.specs.Reading.{GivesLead};

use crate::fault::DecodeFault;
use sb_insn::{Cell, Group, Op, RexRule, cell_of, is_rex};

/// The fields before ModRM.
#[derive(Clone, Copy, Debug, PartialEq, Eq)]
pub struct Lead {
    /// Whether LOCK stands.
    pub lock: bool,
    /// The REX prefix, if one stands.
    pub rex: Option<u8>,
    /// The opcode.
    pub op: Op,
}

/// Whether some instruction of the group has LOCK.
#[inline(always)]
fn group_locks(group: Group) -> bool
    ensures { result ≡ group_locks group }
{
    match group {
        Group::Group1 | Group::Group3 | Group::Group5 => true,
        Group::Group2 | Group::Group11 | Group::Group16 => false,
    }
}

/// Whether some instruction with this opcode has these prefixes.
#[inline(always)]
fn takes_prefixes(cell: Cell, lock: bool, rex: Option<u8>) -> bool
    ensures { result ≡ takes_prefixes cell lock rex }
{
    match cell {
        Cell::Absent => false,
        Cell::NoModRm(plain) => match plain.rex {
            RexRule::Permitted => !lock,
            RexRule::Refused => !lock && rex.is_none(),
        },
        Cell::ModRm(operand) => !lock || operand.lock,
        Cell::Extended(group, _, _) => !lock || group_locks(group),
    }
}

/// The whole lead is read: does its opcode go with its prefixes?
#[inline(always)]
fn checked(lead: Lead, rest: &[u8]) -> Result<((Lead, Cell), &[u8]), DecodeFault>
    ensures { GivesLead result (checked_lead lead rest.now) }
{
    let cell = cell_of(lead.op);
    if takes_prefixes(cell, lead.lock, lead.rex) {
        Ok(((lead, cell), rest))
    } else {
        Err(DecodeFault::Undecoded)
    }
}

/// The bytes behind 0F 01: D4 makes VMFUNC.
#[inline(always)]
fn vmfunc(lock: bool, rex: Option<u8>, bytes: &[u8]) -> Result<((Lead, Cell), &[u8]), DecodeFault>
    ensures { GivesLead result (ending (0xD4 ∷ []) (lead_of lock rex Op.Vmfunc) bytes.now) }
{
    let lead = Lead {
        lock,
        rex,
        op: Op::Vmfunc,
    };
    let cell = cell_of(lead.op);
    if !takes_prefixes(cell, lock, rex) {
        return Err(DecodeFault::Undecoded);
    }
    match bytes {
        [] => Err(DecodeFault::Short),
        [0xD4, rest @ ..] => Ok(((lead, cell), rest)),
        [_, ..] => Err(DecodeFault::Undecoded),
    }
}

/// The bytes behind F3: 0F 1E FA make ENDBR64.
#[inline(always)]
fn endbr64(lock: bool, rex: Option<u8>, bytes: &[u8]) -> Result<((Lead, Cell), &[u8]), DecodeFault>
    ensures { GivesLead result (ending (0x0F ∷ 0x1E ∷ 0xFA ∷ []) (lead_of lock rex Op.Endbr) bytes.now) }
{
    let lead = Lead {
        lock,
        rex,
        op: Op::Endbr,
    };
    let cell = cell_of(lead.op);
    if !takes_prefixes(cell, lock, rex) {
        return Err(DecodeFault::Undecoded);
    }
    match bytes {
        [] | [0x0F] | [0x0F, 0x1E] => Err(DecodeFault::Short),
        [0x0F, 0x1E, 0xFA, rest @ ..] => Ok(((lead, cell), rest)),
        _ => Err(DecodeFault::Undecoded),
    }
}

/// The bytes behind 0F, which leads to the two-byte opcode map.
#[inline(always)]
#[tactic(auto, unfolding(crate::specs::LeadReader::second_at))]
fn second(lock: bool, rex: Option<u8>, bytes: &[u8]) -> Result<((Lead, Cell), &[u8]), DecodeFault>
    ensures { GivesLead result (second_at lock rex bytes.now) }
{
    match bytes {
        [] => Err(DecodeFault::Short),
        [0x01, rest @ ..] => vmfunc(lock, rex, rest),
        [opcode, rest @ ..] => {
            let op = Op::Two(*opcode);
            checked(Lead { lock, rex, op }, rest)
        }
    }
}

/// The bytes behind the prefixes.
#[inline(always)]
#[tactic(auto, unfolding(crate::specs::LeadReader::opcode_at))]
fn opcode(lock: bool, rex: Option<u8>, bytes: &[u8]) -> Result<((Lead, Cell), &[u8]), DecodeFault>
    ensures { GivesLead result (opcode_at lock rex bytes.now) }
{
    match bytes {
        [] => Err(DecodeFault::Short),
        [0x0F, rest @ ..] => second(lock, rex, rest),
        [0xF3, rest @ ..] => endbr64(lock, rex, rest),
        [opcode, rest @ ..] => {
            let op = Op::One(*opcode);
            checked(Lead { lock, rex, op }, rest)
        }
    }
}

/// REX, if it stands, and the bytes behind it.
#[inline(always)]
#[tactic(auto, unfolding(crate::specs::LeadReader::rex_at, crate::specs::LeadReader::opcode_at))]
fn rex(bytes: &[u8]) -> (Option<u8>, &[u8])
    ensures { (lock : Bool) → rex_at lock bytes.now ≡ opcode_at lock result.0 result.1.now }
{
    match bytes {
        [] => (None, bytes),
        [byte, rest @ ..] => {
            if is_rex(*byte) {
                (Some(*byte), rest)
            } else {
                (None, bytes)
            }
        }
    }
}

/// Whether LOCK stands, and the bytes behind it.
#[inline(always)]
#[tactic(auto, unfolding(crate::specs::LeadReader::lead_at, crate::specs::LeadReader::rex_at))]
fn lock(bytes: &[u8]) -> (bool, &[u8])
    ensures { lead_at bytes.now ≡ rex_at result.0 result.1.now }
{
    match bytes {
        [0xF0, rest @ ..] => (true, rest),
        _ => (false, bytes),
    }
}

/// The lead of an instruction with the cell of its opcode, and the bytes behind it.
#[inline(always)]
pub fn read(bytes: &[u8]) -> Result<((Lead, Cell), &[u8]), DecodeFault>
    ensures { GivesLead result (lead_at bytes.now) }
{
    let (lock, rest) = lock(bytes);
    let (rex, rest) = rex(rest);
    opcode(lock, rex, rest)
}
