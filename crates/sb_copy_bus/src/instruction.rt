//! The instruction at an address.

ghost use Rattle.std.specs.Prelude.{◌≡◌, ◌<◌, IfOk, IsTrue};
ghost use Rattle.sb_memory.specs.Physical.{frame_count};
ghost use Rattle.sb_insn.specs.Grammar.{IsValid};
ghost use Rattle.sb_exec.specs.Fetching.{FetchesOn};
ghost use Rattle.sb_walks.specs.Entry.{frame_in};
ghost use Rattle.sb_walks.specs.Ept.{is_eptp};
ghost use Rattle.sb_agree.specs.Noted.{noted_rule};
ghost use Rattle.sb_nested.specs.View.{view};
ghost use Rattle.sb_nested.specs.Store.{view_interface};

use crate::bus::CopyBus;
use sb_bus::BusStop;
use sb_exec::fetch_insn;
use sb_insn::Insn;
use sb_partial::Partial;

/// The instruction at an address, as a core fetches it through an EPT pointer and a CR3.
///
/// # Errors
///
/// What the first byte that cannot be fetched gives, or fault `undefined` at `rip` where no instruction begins with the bytes.
pub fn fetch_next(part: &mut Partial, eptp: u64, cr3: u64, rip: u64) -> Result<Insn, BusStop>
    requires eptp { IsTrue (is_eptp eptp) }
    requires root { frame_in eptp < frame_count part.old.memory }
    ensures fetched { FetchesOn (view_interface noted_rule) (view part.old.memory eptp cr3) rip
        part.old.noted part.new.noted result }
    ensures valid { IfOk result IsValid }
    ensures same { part.new.memory ≡ part.old.memory }
    ensures given { part.new.given ≡ part.old.given }
    ensures began { part.new.began ≡ part.old.began }
{
    fetch_insn(&mut CopyBus::new(part, eptp, cr3), rip)
}
