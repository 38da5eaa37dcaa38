//! Where a direct jump or call may lead.

ghost use Rattle.std.specs.Prelude.{◌≡◌, ◌↔◌, IsTrue};
ghost use Rattle.sb_forms.specs.Places.{IsInTrampoline};
ghost use Rattle.sb_rewrite.specs.Target.{IsBadTarget};
ghost use Rattle.sb_rewrite.specs.Turns.{is_in_text, Remembers, ChecksJumps};

use crate::listing::Listing;
use crate::refusal::RewriteRefusal;
use crate::text_insn::TextInsn;
use sb_abi::{TEXT_ADDRESS, TRAMPOLINE_ADDRESS, WINDOW_PAGES};
use sb_memory::PAGE_SIZE;
use sb_slots::Starts;

/// A direct jump or call that leads to an address that a text can have.
#[derive(Clone, Copy, Debug)]
pub(crate) struct Jump {
    /// Its own address.
    pub at: u64,
    /// Where it leads.
    pub target: u64,
}

/// Whether the address is in the trampoline page, to which any text may jump.
#[inline(always)]
fn is_in_trampoline(target: u64) -> bool
    ensures { IsTrue result ↔ IsInTrampoline target }
{
    TRAMPOLINE_ADDRESS <= target && target < TRAMPOLINE_ADDRESS + PAGE_SIZE
}

/// Whether a direct jump or call leads neither to a start of the text nor into the trampoline page.
pub(crate) fn is_bad_target(listing: &Listing, target: Option<u64>) -> bool
    ensures { IsTrue result ↔ IsBadTarget listing.now target }
{
    match target {
        Some(target) => !is_in_trampoline(target) && !listing.is_start(target),
        None => false,
    }
}

/// Whether it is an address that a text can have.
#[inline(always)]
fn is_in_text(address: u64) -> bool
    ensures { result ≡ is_in_text address }
{
    TEXT_ADDRESS <= address && address < TEXT_ADDRESS + WINDOW_PAGES * PAGE_SIZE
}

/// Remembers a direct jump or call that leads into the text, until all starts are known.
///
/// # Errors
///
/// `BadTarget` where one leads neither there nor into the trampoline page.
#[inline(always)]
pub(crate) fn remember_jump(
    jumps: &mut Vec<Jump>,
    text_insn: &TextInsn,
) -> Result<(), RewriteRefusal>
    ensures { Remembers jumps.old.items jumps.new.items text_insn.now result }
{
    let Some(target) = text_insn.insn.direct_target(text_insn.at) else {
        return Ok(());
    };
    if is_in_text(target) {
        jumps.push(Jump {
            at: text_insn.at,
            target,
        })?;
    } else if !is_in_trampoline(target) {
        return Err(RewriteRefusal::BadTarget { at: text_insn.at });
    }
    Ok(())
}

/// Refuses a jump that leads to no start.
pub(crate) fn check_jumps(jumps: &[Jump], starts: &Starts) -> Result<(), RewriteRefusal>
    ensures { ChecksJumps jumps.now starts.now result }
{
    for jump in jumps {
        if !starts.contains(jump.target) {
            return Err(RewriteRefusal::BadTarget { at: jump.at });
        }
    }
    Ok(())
}
