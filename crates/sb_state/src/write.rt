//! Numbers written to the memory of a thread in a view.

ghost use Rattle.std.specs.Prelude.{◌≡◌, ◌<◌, ◌≤◌, ◌+◌, ◌%◌, Ok, Err, OnOk, IfErr, length};
ghost use Rattle.sb_memory.specs.declared.address.Access.TheVariants.{Write};
ghost use Rattle.sb_bus.specs.Access.{bytes_from, byte_for, store_answer, where_stored};
ghost use Rattle.sb_state.specs.PlainMemory.{plain_byte, plain_stored, put_all};
ghost use Rattle.sb_state.specs.PagePlaces.{page_place_at, bytes_to_put_in};

use crate::plain_state::PlainState;
use crate::translate::{known_page_for_access, page_for_access};
use sb_bus::BusStop;
use sb_memory::{Access, Linear};
use sb_pages::PageName;

/// A place in a page.
#[derive(Clone, Copy)]
pub struct PagePlace {
    name: PageName,
    offset: usize,
}

/// No place of its own, before a place is found.
const NOWHERE: PagePlace = PagePlace {
    name: PageName::HomeTrampoline,
    offset: 0,
};

/// Where a byte that is written at an address goes.
#[tactic(auto, unfolding(crate::specs::PagePlaces::page_place_at))]
fn page_place_at(
    state: &PlainState,
    thread: u32,
    view: u32,
    at: Linear,
) -> Result<PagePlace, BusStop>
    ensures { result ≡ page_place_at thread view state.now at.0 }
{
    let (name, _) = page_for_access(state, thread, view, at, Access::Write)?;
    let offset = (at.0 % 4096) as usize;
    Ok(PagePlace { name, offset })
}

/// Where the bytes that are written from an address upwards go.
#[tactic(auto, using(crate::proofs::PagePlaces::places_none, crate::proofs::PagePlaces::places_stop, crate::proofs::PagePlaces::places_stop_later, crate::proofs::PagePlaces::places_more))]
fn find_page_places(
    state: &PlainState,
    thread: u32,
    view: u32,
    at: Linear,
    places: &mut [PagePlace],
) -> Result<(), BusStop>
    ensures ok { OnOk result (bytes_from (page_place_at thread view state.now) at.0 (length places.old) ≡ Ok places.new) }
    ensures err { IfErr result (λ stop. bytes_from (page_place_at thread view state.now) at.0 (length places.old) ≡ Err stop) }
{
    if let Some((lowest, others)) = places.split_first_mut() {
        *lowest = page_place_at(state, thread, view, at)?;
        find_page_places(state, thread, view, Linear(at.0.wrapping_add(1)), others)?;
    }
    Ok(())
}

/// Puts the lowest bytes of a number at these places, the lowest first.
#[tactic(auto, unfolding(crate::specs::PlainMemory::put_byte, crate::specs::State::with_contents, crate::specs::State::contents))]
fn put(state: &mut PlainState, places: &[PagePlace], value: u64)
    ensures { state.new ≡ put_all state.old (bytes_to_put_in places.now value) }
{
    if let Some((lowest, others)) = places.split_first() {
        state
            .pages
            .put(lowest.name, lowest.offset, (value % 256) as u8);
        put(state, others, value / 256);
    }
}

/// Writes the lowest bytes of a number from an address upwards, as many as there is room for their places, if each of
/// them may be written.
#[tactic(auto, using(crate::proofs::PagePlaces::store_done, crate::proofs::PagePlaces::store_stopped, crate::proofs::PagePlaces::places_stored))]
fn store_by(
    state: &mut PlainState,
    thread: u32,
    view: u32,
    at: Linear,
    value: u64,
    places: &mut [PagePlace],
) -> Result<(), BusStop>
    ensures answer { result ≡ store_answer (byte_for (plain_byte thread view state.old) Write) at.0 (length places.old) }
    ensures written { state.new
        ≡ where_stored result (plain_stored thread view state.old at.0 (length places.old) value) state.old }
{
    find_page_places(state, thread, view, at, places)?;
    put(state, places, value);
    Ok(())
}

/// Writes the lowest bytes of a number at an address, which end in the page in which they begin, if they may be written:
/// the page is looked up once.
#[tactic(auto, using(crate::proofs::WholeNumber::number_stored, crate::proofs::WholeNumber::number_may_be_stored, crate::proofs::WholeNumber::number_not_stored), unfolding(crate::specs::State::with_contents, crate::specs::State::contents))]
fn store_in_page(
    state: &mut PlainState,
    thread: u32,
    view: u32,
    at: Linear,
    size: u8,
    value: u64,
) -> Result<(), BusStop>
    requires some { 0 < size }
    requires few { size ≤ 8 }
    requires within { at.0 % 4096 + size ≤ 4096 }
    ensures answer { result ≡ store_answer (byte_for (plain_byte thread view state.old) Write) at.0 size }
    ensures written { state.new ≡ where_stored result (plain_stored thread view state.old at.0 size value) state.old }
{
    let (known, _) = known_page_for_access(state, thread, view, at, Access::Write)?;
    state
        .pages
        .put_number(known, (at.0 % 4096) as usize, size, value);
    Ok(())
}

/// Writes the lowest bytes of a number from an address upwards, if each of them may be written.
pub fn store(
    state: &mut PlainState,
    thread: u32,
    view: u32,
    at: Linear,
    size: u8,
    value: u64,
) -> Result<(), BusStop>
    requires { size ≤ 8 }
    ensures answer { result ≡ store_answer (byte_for (plain_byte thread view state.old) Write) at.0 size }
    ensures written { state.new ≡ where_stored result (plain_stored thread view state.old at.0 size value) state.old }
{
    if 0 < size && at.0 % 4096 <= 4096 - u64::from(size) {
        return store_in_page(state, thread, view, at, size, value);
    }
    let mut places = [NOWHERE; 8];
    store_by(
        state,
        thread,
        view,
        at,
        value,
        &mut places[..usize::from(size)],
    )
}
