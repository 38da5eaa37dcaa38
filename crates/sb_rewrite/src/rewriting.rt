//! The rewriting of a text.

ghost use Rattle.std.specs.Prelude.{◌≡◌, ◌+◌, ◌<◌, ◌≤◌, IfOk, Err, length};
ghost use Rattle.std.specs.List.{AllByRecursion};
ghost use Rattle.sb_forms.specs.Answers.{IsClean};
ghost use Rattle.sb_forms.specs.Places.{HasForm};
ghost use Rattle.sb_rewrite.specs.Listing.{text_address, IsListing};
ghost use Rattle.sb_rewrite.specs.Placing.{is_after_0f};
ghost use Rattle.sb_rewrite.specs.Turns.{IsTextInsn, JumpsLeadWell, ChecksTargets, ChecksMovable, with_start, place_by_table, Puts, IsPutRefusal, PutsAll};
ghost use Rattle.sb_rewrite.specs.Rewriting.{Rewrites, LeavesNone, KeepsLength, StartsStandInText, OneRewriting, OneOriginal};

use crate::draft::Draft;
use crate::listing::{Listing, list};
use crate::refusal::RewriteRefusal;
use crate::rewritten::Rewritten;
use crate::target::{check_jumps, is_bad_target, remember_jump};
use crate::text_insn::{TextInsn, decode_first};
use sb_abi::{AREA_ADDRESS, TEXT_ADDRESS};
use sb_forms::{Form, form};
use std::alloc::Global;

/// Whether the byte before the address is 0F in the text.
fn is_after_0f(text: &[u8], at: u64) -> bool
    requires { at ≤ text_address + length text.now }
    ensures { result ≡ is_after_0f text.now at }
{
    at > TEXT_ADDRESS && text[(at - TEXT_ADDRESS) as usize - 1] == 0x0F
}

/// Refuses the first direct jump or call that leads elsewhere than to a start of the text or into the trampoline.
fn check_targets(text: &[u8], listing: &Listing) -> Result<(), RewriteRefusal>
    requires { IsListing text.now listing.now }
    ensures { ChecksTargets text.now result }
{
    let mut rest = text;
    while !rest.is_empty() {
        let text_insn = decode_first(text, rest)?;
        if is_bad_target(listing, text_insn.insn.direct_target(text_insn.at)) {
            return Err(RewriteRefusal::BadTarget { at: text_insn.at });
        }
        rest = text_insn.rest;
    }
    Ok(())
}

/// Refuses the first instruction in whose place nothing can stand.
fn check_movable(text: &[u8]) -> Result<(), RewriteRefusal>
    requires size { length text.now ≤ 2097152 }
    requires jumps { JumpsLeadWell text.now }
    ensures { ChecksMovable text.now result }
{
    let mut rest = text;
    while !rest.is_empty() {
        let text_insn = decode_first(text, rest)?;
        let after_0f = is_after_0f(text, text_insn.at);
        // Whether it can be moved does not depend on the slot.
        if let Form::Unmovable = form(&text_insn.insn, text_insn.at, AREA_ADDRESS, after_0f) {
            return Err(RewriteRefusal::Unmovable { at: text_insn.at });
        }
        rest = text_insn.rest;
    }
    Ok(())
}

/// The byte with which the bytes of VMFUNC end.
const LAST_BYTE: u8 = 0xD4;

/// Puts what the table of forms gives in place of an instruction of a text.
///
/// It is not part of `put_text_insn`, so that the space for a form is set up only for the few instructions that need one.
#[inline(never)]
fn put_form(draft: &mut Draft, text: &[u8], text_insn: &TextInsn) -> Result<(), RewriteRefusal>
    requires size { length text.now ≤ 2097152 }
    requires text_insn { IsTextInsn text_insn.now }
    requires form { HasForm text_insn.now.insn }
    requires within { (text_address ≤ text_insn.now.at) × (text_insn.now.at < text_address + length text.now) }
    ensures { Puts draft.old draft.new (place_by_table text.now draft.old text_insn.now) result }
{
    let after_0f = is_after_0f(text, text_insn.at);
    let form = form(&text_insn.insn, text_insn.at, draft.next_slot(), after_0f);
    draft.put(text_insn, &form)
}

/// Puts the start of an instruction of a text, and what stands in its place.
#[inline(always)]
fn put_text_insn(draft: &mut Draft, text: &[u8], text_insn: &TextInsn) -> Result<(), RewriteRefusal>
    requires size { length text.now ≤ 2097152 }
    requires text_insn { IsTextInsn text_insn.now }
    requires form { HasForm text_insn.now.insn }
    requires within { (text_address ≤ text_insn.now.at) × (text_insn.now.at < text_address + length text.now) }
    requires above { AllByRecursion (λ start. start < text_insn.now.at) draft.old.starts }
    ensures { Puts (with_start draft.old text_insn.now.at) draft.new (place_by_table text.now draft.old text_insn.now) result }
{
    draft.start(text_insn.at)?;
    // ADD ESP, EDX ends with this byte too, so an instruction without it is kept.
    if text_insn.bytes.contains(&LAST_BYTE) {
        // The others stay in registers.
        let in_memory = *text_insn;
        put_form(draft, text, &in_memory)
    } else {
        draft.keep(text_insn)
    }
}

/// Puts what stands in place of each instruction, one after another, until one is refused.
///
/// Jumps into the text are checked at last, when all starts are known.
fn put_all(alloc: Global, text: &[u8]) -> Result<Draft, RewriteRefusal>
    requires { length text.now ≤ 2097152 }
    ensures { PutsAll text.now result }
{
    let mut draft = Draft::with_room(alloc, text.len())?;
    let mut jumps = Vec::new(alloc);
    let mut rest = text;
    while !rest.is_empty() {
        let text_insn = decode_first(text, rest)?;
        remember_jump(&mut jumps, &text_insn)?;
        put_text_insn(&mut draft, text, &text_insn)?;
        rest = text_insn.rest;
    }
    check_jumps(&jumps, draft.starts())?;
    Ok(draft)
}

/// Why a text cannot be rewritten, where putting it met this refusal.
///
/// A place at which nothing can be decoded, wherever it is, comes before a jump that leads elsewhere, that before an
/// instruction that cannot be moved, and that before a full area.
fn first_refusal(alloc: Global, text: &[u8], met: RewriteRefusal) -> RewriteRefusal
    requires size { length text.now ≤ 2097152 }
    requires met { IsPutRefusal text.now met }
    ensures { Rewrites text.now (Err result) }
{
    let listing = match list(alloc, text) {
        Ok(listing) => listing,
        Err(refusal) => return RewriteRefusal::from(refusal),
    };
    if let Err(bad_target) = check_targets(text, &listing) {
        return bad_target;
    }
    if let Err(unmovable) = check_movable(text) {
        return unmovable;
    }
    met
}

/// Rewrites a text, which stands at `TEXT_ADDRESS`, by the table of forms, so that the bytes of VMFUNC stand nowhere.
///
/// # Errors
///
/// In this order, each at the first such address: `Undecoded` where no whole instruction stands behind whole ones;
/// `BadTarget` where a direct jump or call leads neither to an instruction of the text nor into the trampoline page;
/// `Unmovable` where nothing can stand in place of an instruction; `AreaFull` where a slot would end behind the area.
/// `Memory` where memory ran out, in place of any answer.
pub fn rewrite(alloc: Global, text: &[u8]) -> Result<Rewritten, RewriteRefusal>
    requires { length text.now ≤ 2097152 }
    ensures answer { Rewrites text.now result }
    ensures as_long { IfOk result (λ made. length made.text ≡ length text.now) }
    // Bytes CC around the text or the area do not make the bytes of VMFUNC either.
    ensures text { IfOk result (λ made. IsClean made.text) }
    ensures area { IfOk result (λ made. IsClean made.area) }
{
    match put_all(alloc, text) {
        Ok(draft) => Ok(draft.finish()),
        Err(met) => Err(first_refusal(alloc, text, met)),
    }
}

/// A law, which does nothing when it is called: the bytes of VMFUNC stand nowhere in what a text becomes.
pub fn rewriting_leaves_none()
    ensures { LeavesNone }
{}

/// A law, which does nothing when it is called: what a text becomes has as many bytes as the text.
pub fn rewriting_keeps_length()
    ensures { KeepsLength }
{}

/// A law, which does nothing when it is called: each instruction of a text that is rewritten starts at one of its bytes.
pub fn starts_stand_in_text()
    ensures { StartsStandInText }
{}

/// A law, which does nothing when it is called: a text has one answer, but for want of memory, and one original
/// instruction at most runs at an address.
pub fn one_rewriting()
    ensures answer { OneRewriting }
    ensures original { OneOriginal }
{}
