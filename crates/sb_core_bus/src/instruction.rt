//! The instruction at an address.

ghost use Rattle.std.specs.Prelude.{◌≡◌, ◌<◌, Ok, IfOk, IfSome, IsTrue};
ghost use Rattle.sb_memory.specs.Physical.{frame_count};
ghost use Rattle.sb_insn.specs.Grammar.{IsValid};
ghost use Rattle.sb_exec.specs.Fetching.{FetchesOn};
ghost use Rattle.sb_walks.specs.Entry.{frame_in};
ghost use Rattle.sb_walks.specs.Ept.{is_eptp};
ghost use Rattle.sb_nested.specs.View.{view};
ghost use Rattle.sb_nested.specs.Store.{view_interface};
ghost use Rattle.sb_core_bus.specs.Account.{no_account};

use crate::place::place_in_page;
use sb_bus::BusStop;
use sb_exec::{fetch_insn, first_insn};
use sb_insn::Insn;
use sb_memory::{Access, Linear, Memory, PAGE_SIZE};
use sb_nested::NestedBus;

/// The instruction at an address, where it ends in the page in which it begins.
#[inline]
fn fetch_in_page(memory: &mut Memory, eptp: u64, cr3: u64, rip: u64) -> Option<Insn>
    requires eptp { IsTrue (is_eptp eptp) }
    requires root { frame_in eptp < frame_count memory.old }
    ensures fetched { IfSome result (λ insn. FetchesOn (view_interface no_account) (view memory.old eptp cr3) rip tt tt (Ok insn)) }
    ensures valid { IfSome result IsValid }
    ensures same { memory.new ≡ memory.old }
{
    let size = PAGE_SIZE - rip % PAGE_SIZE;
    let place = place_in_page(memory, eptp, cr3, Linear(rip), size, Access::Fetch)?;
    let (_, behind) = memory.bytes().split_at(place.0 as usize);
    let (page, _) = behind.split_at(size as usize);
    first_insn(page)
}

/// The instruction at an address, as a core fetches it through an EPT pointer and a CR3.
///
/// # Errors
///
/// What the first byte that cannot be fetched gives, or fault `undefined` at `rip` where no instruction begins with the bytes.
pub fn fetch_next(memory: &mut Memory, eptp: u64, cr3: u64, rip: u64) -> Result<Insn, BusStop>
    requires eptp { IsTrue (is_eptp eptp) }
    requires root { frame_in eptp < frame_count memory.old }
    ensures fetched { FetchesOn (view_interface no_account) (view memory.old eptp cr3) rip tt tt result }
    ensures valid { IfOk result IsValid }
    ensures same { memory.new ≡ memory.old }
{
    match fetch_in_page(memory, eptp, cr3, rip) {
        Some(insn) => Ok(insn),
        None => fetch_insn(&mut NestedBus::new(memory, eptp, cr3), rip),
    }
}
