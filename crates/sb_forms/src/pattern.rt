//! Whether the bytes of VMFUNC stand in bytes.

ghost use Rattle.std.specs.Prelude.{◌≡◌, ◌≤◌, length};
ghost use Rattle.sb_insn.specs.Spelling.{number, spelling};
ghost use Rattle.std.specs.Int.{w32};
ghost use Rattle.sb_forms.specs.Holding.{holds_pattern};

use crate::code::Code;
use sb_insn::Insn;
use sb_scan::find_pattern;

/// Whether the bytes of VMFUNC stand somewhere in these.
#[tactic(auto, using(sb_scan::proofs::Held::found_holds))]
pub fn holds_pattern(bytes: &[u8]) -> bool
    ensures { result ≡ holds_pattern bytes.now }
{
    find_pattern(bytes).is_some()
}

/// Whether the four bytes of a number are, or hold, those of VMFUNC.
pub fn number_holds_pattern(value: i32) -> bool
    ensures { result ≡ holds_pattern (number w32 value) }
{
    holds_pattern(&value.to_le_bytes())
}

/// Whether the bytes of an instruction hold those of VMFUNC.
pub fn insn_holds_pattern(insn: &Insn) -> bool
    requires { length (spelling insn.now) ≤ 64 }
    ensures { result ≡ holds_pattern (spelling insn.now) }
{
    holds_pattern(Code::of(insn).bytes())
}
