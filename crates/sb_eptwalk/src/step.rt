//! The walk over four levels.

ghost use Rattle.std.specs.Prelude.{◌≡◌, ◌<◌, ◌≤◌, ◌*◌, ◌%◌, ◌^◌, IfOk, IsTrue};
ghost use Rattle.sb_memory.specs.declared.page.TheConstants.{PAGE_SIZE};
ghost use Rattle.sb_memory.specs.Physical.{frame_count};
ghost use Rattle.sb_memory.specs.Accounts.{ReadWord, account_after_words};
ghost use Rattle.sb_walks.specs.Entry.{entry_place, frame_in};
ghost use Rattle.sb_walks.specs.Ept.{ept_step, ept_walk_reads, ept_walk, is_eptp};

use crate::entry::judge;
use sb_memory::{Access, EptStop, GuestPhys, PAGE_SIZE, Phys, PhysAddr};
use sb_walks::{entry_place, frame_number};

/// One level: from the frame of a table to the frame to which the entry for the address leads.
#[tactic(auto, unfolding(sb_walks::specs::Ept::ept_step))]
fn step<P: Phys>(
    phys: &mut P,
    at: u64,
    access: Access,
    level: u8,
    frame: u64,
) -> Result<u64, EptStop>
    requires level { level ≤ 4 }
    requires inside { frame < frame_count (P.meaning phys.old) }
    ensures answer { result ≡ ept_step (P.meaning phys.old) at access level frame }
    ensures inside { IfOk result (λ next. next < frame_count (P.meaning phys.old)) }
    ensures range { IfOk result (λ next. next < 2 ^ 32) }
    ensures same { P.meaning phys.new ≡ P.meaning phys.old }
    ensures account { P.account phys.new
        ≡ P.rule (ReadWord (entry_place frame level at)) (P.meaning phys.old) (P.account phys.old) }
    ensures kept { P.kept phys.new ≡ P.kept phys.old }
{
    let frames = phys.frames();
    match phys.read_word(PhysAddr(entry_place(frame, level, at))) {
        Ok(entry) => judge(frames, access, level, entry),
        Err(gap) => Err(EptStop::Missing(gap.frame)),
    }
}

/// The physical address of a guest-physical one for an access, from the table to which an EPT pointer leads.
///
/// # Errors
///
/// `TooWide` comes exactly where the address has more than 48 bits. Then, at each level from 4 to 1, the first that applies
/// of: `Missing`, the memory does not have the frame of the table; `NotPresent`, the entry permits nothing; `Misconfigured`,
/// write without read, or at level 1 another memory type than 6; `Large`, at level 3 or 2; `Outside`, the next frame lies past
/// the end of memory; `Denied`, the entry does not permit the access.
#[tactic(auto, unfolding(sb_walks::specs::Ept::ept_walk, sb_walks::specs::Ept::ept_walk_reads))]
pub fn ept_walk<P: Phys>(
    phys: &mut P,
    eptp: u64,
    at: GuestPhys,
    access: Access,
) -> Result<PhysAddr, EptStop>
    requires eptp { IsTrue (is_eptp eptp) }
    requires root { frame_in eptp < frame_count (P.meaning phys.old) }
    ensures answer { result ≡ ept_walk (P.meaning phys.old) eptp at.0 access }
    ensures inside { IfOk result (λ place. place.0 < PAGE_SIZE * frame_count (P.meaning phys.old)) }
    ensures offset { IfOk result (λ place. place.0 % PAGE_SIZE ≡ at.0 % PAGE_SIZE) }
    ensures same { P.meaning phys.new ≡ P.meaning phys.old }
    ensures account { P.account phys.new
        ≡ account_after_words P.rule (P.meaning phys.old) (ept_walk_reads (P.meaning phys.old) eptp at.0 access)
        (P.account phys.old) }
    ensures kept { P.kept phys.new ≡ P.kept phys.old }
{
    if at.0 >> 48 != 0 {
        return Err(EptStop::TooWide);
    }
    let directory_pointers = step(phys, at.0, access, 4, frame_number(eptp))?;
    let directory = step(phys, at.0, access, 3, directory_pointers)?;
    let table = step(phys, at.0, access, 2, directory)?;
    let page = step(phys, at.0, access, 1, table)?;
    Ok(PhysAddr(PAGE_SIZE * page + at.offset()))
}
