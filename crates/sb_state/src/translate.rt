//! The page that an access reaches.

ghost use Rattle.std.specs.Prelude.{◌≡◌, Some, IfOk, length};
ghost use Rattle.sb_memory.specs.declared.page.TheConstants.{PAGE_SIZE};
ghost use Rattle.sb_pages.specs.PageLists.{find_page};
ghost use Rattle.sb_state.specs.Windows.{page_by_name};
ghost use Rattle.sb_pages.specs.Places.{place_of};
ghost use Rattle.sb_state.specs.NameForAccess.{name_for_access, name_if_permitted, name_only, known_name};

use crate::address_space::name_for;
use crate::plain_state::PlainState;
use sb_bus::{BusStop, FaultKind};
use sb_memory::{Access, Linear};
use sb_pages::{Known, Page, PageName, Pages, mode_of, permits};

/// The page of a name, if an access to it is permitted, with its place.
fn page_if_permitted(
    pages: &Pages,
    name: PageName,
    at: Linear,
    access: Access,
) -> Result<(Known, &Page), BusStop>
    ensures name { known_name result ≡ name_if_permitted (page_by_name pages.now.pages name) at.0 access }
    ensures place { IfOk result (λ found. place_of pages.now.pages found.0.name ≡ Some found.0.place) }
    ensures page { IfOk result (λ found. find_page pages.now.pages found.0.name ≡ Some found.1.now) }
    ensures size { IfOk result (λ found. length found.1.now.bytes ≡ PAGE_SIZE) }
{
    match pages.find_placed(name) {
        Some((place, page)) if permits(mode_of(name, page.executable), access) => {
            Ok((Known { name, place }, page))
        }
        _ => Err(BusStop::Fault(FaultKind::Memory, at)),
    }
}

/// The page that an access in a view of a thread reaches, with its name and its place.
#[tactic(auto, unfolding(crate::specs::Windows::page_for, crate::specs::NameForAccess::name_for_access))]
pub fn known_page_for_access(
    state: &PlainState,
    thread: u32,
    view: u32,
    at: Linear,
    access: Access,
) -> Result<(Known, &Page), BusStop>
    ensures name { known_name result ≡ name_for_access thread view state.now at.0 access }
    ensures place { IfOk result (λ found. place_of state.now.pages found.0.name ≡ Some found.0.place) }
    ensures page { IfOk result (λ found. find_page state.now.pages found.0.name ≡ Some found.1.now) }
    ensures size { IfOk result (λ found. length found.1.now.bytes ≡ PAGE_SIZE) }
{
    if !at.is_canonical() {
        return Err(BusStop::Fault(FaultKind::Canon, at));
    }
    match name_for(&state.threads, thread, view, at.0 / 4096) {
        Some(name) => page_if_permitted(&state.pages, name, at, access),
        None => Err(BusStop::Fault(FaultKind::Memory, at)),
    }
}

/// The page that an access in a view of a thread reaches, with its name.
pub fn page_for_access(
    state: &PlainState,
    thread: u32,
    view: u32,
    at: Linear,
    access: Access,
) -> Result<(PageName, &Page), BusStop>
    ensures name { name_only result ≡ name_for_access thread view state.now at.0 access }
    ensures page { IfOk result (λ found. find_page state.now.pages found.0 ≡ Some found.1.now) }
    ensures size { IfOk result (λ found. length found.1.now.bytes ≡ 4096) }
{
    let (known, page) = known_page_for_access(state, thread, view, at, access)?;
    Ok((known.name, page))
}
