//! VMFUNC's leaf 0: EPTP switching (SDM volume 3, section 25.5.5.3).

ghost use Rattle.std.specs.Prelude.{◌≡◌, ◌<◌, IfOk};
ghost use Rattle.sb_memory.specs.Physical.{frame_count};
ghost use Rattle.sb_memory.specs.Accounts.{account_after_words};
ghost use Rattle.sb_root.specs.Switch.{HasPointer, switch_reads, switch_result};

use crate::switch_answer::Switch;
use sb_memory::{Frame, Missing, Phys};
use sb_walks::is_eptp;

/// How many entries a list has.
const LIST_ENTRIES: u32 = 512;

/// What VMFUNC does with these registers, by the list that stands in a frame.
///
/// `BadLeaf` comes exactly where EAX is not 0. `Unbound` comes exactly where EAX is 0 and ECX is 512 or more, or the entry is
/// no EPT pointer.
///
/// # Errors
///
/// `Missing` comes exactly where the entry would be read and the list's frame is not there.
#[tactic(auto, unfolding(crate::specs::Switch::switch_result, crate::specs::Switch::switch_reads))]
pub fn switch<P: Phys>(phys: &mut P, list: Frame, eax: u32, ecx: u32) -> Result<Switch, Missing>
    requires { list.0 < frame_count (P.meaning phys.old) }
    ensures answer { result ≡ switch_result (P.meaning phys.old) list.0 eax ecx }
    ensures pointer { IfOk result HasPointer }
    ensures same { P.meaning phys.new ≡ P.meaning phys.old }
    ensures account { P.account phys.new
        ≡ account_after_words P.rule (P.meaning phys.old) (switch_reads list.0 eax ecx) (P.account phys.old) }
    ensures kept { P.kept phys.new ≡ P.kept phys.old }
{
    if eax != 0 {
        return Ok(Switch::BadLeaf);
    }
    if ecx >= LIST_ENTRIES {
        return Ok(Switch::Unbound);
    }
    let entry = phys.read_word(list.word(u64::from(ecx)))?;
    if is_eptp(entry) {
        Ok(Switch::To { eptp: entry })
    } else {
        Ok(Switch::Unbound)
    }
}
