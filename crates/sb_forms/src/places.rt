//! Where the bytes of VMFUNC can stand in an instruction.

ghost use Rattle.std.specs.Prelude.{◌≡◌, ◌↔◌, ◌&&◌, IsTrue};
ghost use Rattle.sb_insn.specs.Spelling.{spelling};
ghost use Rattle.sb_insn.specs.Branch.{is_direct};
ghost use Rattle.sb_insn.specs.Grammar.{IsValid};
ghost use Rattle.sb_forms.specs.Holding.{holds_pattern};
ghost use Rattle.sb_forms.specs.Places.{HasForm};

use crate::pattern::insn_holds_pattern;
use sb_insn::Insn;

/// Whether it is a direct jump or call that holds the bytes of VMFUNC.
fn direct_holds(insn: &Insn) -> bool
    requires { IsValid insn.now }
    ensures { result ≡ (is_direct insn.now && holds_pattern (spelling insn.now)) }
{
    insn.is_direct() && insn_holds_pattern(insn)
}

/// Whether `form` takes the instruction: it is no direct jump or call that holds the bytes of VMFUNC.
///
/// Each one that leads from a text into a text or the trampoline page is taken (`pattern_places`).
#[tactic(auto, using(crate::proofs::Where::has_form))]
pub fn form_applies(insn: &Insn) -> bool
    requires { IsValid insn.now }
    ensures { IsTrue result ↔ HasForm insn.now }
{
    !direct_holds(insn)
}
