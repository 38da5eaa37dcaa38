//! The line of an instruction by its mark.

ghost use Rattle.std.specs.Prelude.{◌≡◌};
ghost use Rattle.sb_slots.specs.Marks.{is_in_area, mark};
ghost use Rattle.sb_slots.specs.TextMap.{no_map};
ghost use Rattle.sb_trace.specs.Marks.{line_of_mark, touches_scratch};

use crate::event::Event;
use sb_abi::{AREA_ADDRESS, AREA_PAGES, SCRATCH_ADDRESS};
use sb_exec::touches;
use sb_insn::{Insn, Regs};
use sb_memory::PAGE_SIZE;
use sb_slots::Mark;

/// The line of an instruction that stood at `rip`, by its mark (docs/MARKS.md).
pub fn line_of_mark(mark: Mark, rip: u64) -> Event
    ensures { result ≡ line_of_mark mark rip }
{
    match mark {
        Mark::Step => Event::Step { rip },
        Mark::Extra => Event::Extra { rip },
        Mark::Stray => Event::Stray { rip },
    }
}

/// Whether an instruction, with these registers, accesses the scratch page.
pub fn touches_scratch(insn: &Insn, regs: &Regs) -> bool
    ensures { result ≡ touches_scratch insn.now regs.now }
{
    touches(insn, regs, SCRATCH_ADDRESS)
}

/// Whether the address lies in the rewrite area.
fn is_in_area(at: u64) -> bool
    ensures { result ≡ is_in_area at }
{
    AREA_ADDRESS <= at && at < AREA_ADDRESS + AREA_PAGES * PAGE_SIZE
}

/// The mark of an instruction that stood at `rip` where no process is shown, and so no text: RIP is `next` behind it, and
/// `scratch` says whether it accessed the scratch page.
pub fn mark_without_text(rip: u64, next: u64, scratch: bool) -> Mark
    ensures { result ≡ mark no_map rip next scratch }
{
    if is_in_area(next) || scratch && !is_in_area(rip) {
        Mark::Stray
    } else {
        Mark::Step
    }
}
