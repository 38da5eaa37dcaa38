//! Bytes and numbers read from the memory of a thread in a view.

ghost use Rattle.std.specs.Prelude.{◌≡◌, ◌<◌, ◌≤◌, ◌+◌, ◌%◌};
ghost use Rattle.sb_bus.specs.Access.{byte_for, loaded_from};
ghost use Rattle.sb_state.specs.PlainMemory.{plain_byte};

use crate::plain_state::PlainState;
use crate::translate::page_for_access;
use sb_bus::BusStop;
use sb_memory::{Access, Linear};
use sb_pages::number_at;

/// The byte at an address, for an access.
#[tactic(auto, using(crate::proofs::NameForAccess::byte_reached, crate::proofs::NameForAccess::byte_refused))]
pub fn byte(
    state: &PlainState,
    thread: u32,
    view: u32,
    at: Linear,
    access: Access,
) -> Result<u8, BusStop>
    ensures { result ≡ plain_byte thread view state.now at.0 access }
{
    let (_, page) = page_for_access(state, thread, view, at, access)?;
    let offset = (at.0 % 4096) as usize;
    Ok(page.bytes.items().get(offset).copied().unwrap_or(0))
}

/// The number of some bytes at an address, which end in the page in which they begin: the page is looked up once.
#[tactic(auto, using(crate::proofs::InPage::number_in_page, crate::proofs::InPage::number_refused))]
pub fn load_in_page(
    state: &PlainState,
    thread: u32,
    view: u32,
    at: Linear,
    size: u8,
    access: Access,
) -> Result<u64, BusStop>
    requires some { 0 < size }
    requires few { size ≤ 8 }
    requires within { at.0 % 4096 + size ≤ 4096 }
    ensures { result ≡ loaded_from (byte_for (plain_byte thread view state.now) access) at.0 size }
{
    let (_, page) = page_for_access(state, thread, view, at, access)?;
    Ok(number_at(page.bytes.items(), (at.0 % 4096) as usize, size))
}
