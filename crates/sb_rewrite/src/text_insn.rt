//! The first instruction of the rest of a text.

ghost use Rattle.std.specs.Prelude.{◌≤◌, ◌<◌, ◌≡◌, ◌+◌, ℕ, length};
ghost use Rattle.sb_rewrite.specs.Turns.{DecodesFirst};

use crate::refusal::RewriteRefusal;
use sb_abi::TEXT_ADDRESS;
use sb_decode::decode;
use sb_insn::Insn;

/// The first instruction of the rest of a text.
#[derive(Clone, Copy, Debug)]
pub struct TextInsn<'a> {
    /// Its address.
    pub at: u64,
    pub insn: Insn,
    /// Its bytes.
    pub bytes: &'a [u8],
    /// What stands behind it.
    pub rest: &'a [u8],
}

/// Decodes the first instruction of the rest of a text.
///
/// # Errors
///
/// `Undecoded` where no whole instruction begins the rest.
#[inline(always)]
pub fn decode_first<'a>(text: &[u8], rest: &'a [u8]) -> Result<TextInsn<'a>, RewriteRefusal>
    requires { length rest.now ≤ length text.now }
    ensures { DecodesFirst text.now rest.now result }
{
    let at = TEXT_ADDRESS + (text.len() - rest.len()) as u64;
    match decode(rest) {
        Ok((insn, length)) => Ok(TextInsn {
            at,
            insn,
            bytes: &rest[..length],
            rest: &rest[length..],
        }),
        Err(_) => Err(RewriteRefusal::Undecoded { at }),
    }
}
