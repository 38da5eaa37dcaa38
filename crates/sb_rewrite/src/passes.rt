//! Which instructions of a slot follow one another.

ghost use Rattle.std.specs.Prelude.{◌+◌, ◌^◌, ◌<◌, IfOk, length};
ghost use Rattle.sb_rewrite.specs.Slots.{IsSpelled, AddsPasses};

use sb_decode::decode;
use sb_slots::Pass;
use std::alloc::AllocError;

/// Puts the passes of a slot's instructions, whose bytes stand from an address on, behind others.
pub fn push_passes(passes: &mut Vec<Pass>, slot: u64, bytes: &[u8]) -> Result<(), AllocError>
    requires spelled { IsSpelled bytes.now }
    requires within { slot + length bytes.now < 2 ^ 64 }
    ensures { IfOk result (λ done. AddsPasses slot bytes.now passes.old.items passes.new.items) }
{
    let mut from = slot;
    let mut rest = bytes;
    while let Ok((_, length)) = decode(rest) {
        let to = from + length as u64;
        rest = &rest[length..];
        if !rest.is_empty() {
            passes.push(Pass { from, to })?;
        }
        from = to;
    }
    Ok(())
}
