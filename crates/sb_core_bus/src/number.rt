//! Numbers that are read and written where one walk led.

ghost use Rattle.std.specs.Prelude.{◌≡◌, ◌+◌, ◌*◌, ◌≤◌, ◌<◌, true, false, Ok, IfSome, IsTrue, length};
ghost use Rattle.sb_memory.specs.declared.address.Access.TheVariants.{Write};
ghost use Rattle.sb_memory.specs.declared.page.TheConstants.{PAGE_SIZE};
ghost use Rattle.sb_memory.specs.Physical.{frame_count};
ghost use Rattle.sb_memory.specs.Reading.{with_bytes};
ghost use Rattle.sb_bus.specs.Access.{byte_for, loaded_from, store_answer};
ghost use Rattle.sb_pages.specs.PageWords.{put_number};
ghost use Rattle.sb_walks.specs.Entry.{frame_in};
ghost use Rattle.sb_walks.specs.Ept.{is_eptp};
ghost use Rattle.sb_nested.specs.View.{view, view_byte};
ghost use Rattle.sb_nested.specs.Store.{memory_stored};

use crate::place::place_in_page;
use sb_memory::{Access, Linear, Memory, PhysAddr};
use sb_pages::number_at;

/// The number of so many bytes at an address, where they lie in one page and the walk is not refused.
#[inline]
#[tactic(auto, using(crate::proofs::Numbers::number_loaded))]
pub fn load_in_page(
    memory: &mut Memory,
    eptp: u64,
    cr3: u64,
    at: Linear,
    size: u8,
    access: Access,
) -> Option<u64>
    requires eptp { IsTrue (is_eptp eptp) }
    requires root { frame_in eptp < frame_count memory.old }
    requires some { 0 < size }
    requires few { size ≤ 8 }
    ensures loaded { IfSome result (λ number. loaded_from (byte_for (view_byte (view memory.old eptp cr3)) access) at.0 size
        ≡ Ok number) }
    ensures same { memory.new ≡ memory.old }
{
    let place = place_in_page(memory, eptp, cr3, at, u64::from(size), access)?;
    Some(number_at(memory.bytes(), place.0 as usize, size))
}

/// Puts so many of the lowest bytes of a number at a place: a word at its place as one.
#[inline]
#[tactic(auto, using(sb_pages::proofs::Numbers::low_taken, sb_pages::proofs::Numbers::length_low), unfolding(sb_pages::specs::PageWords::put_number, sb_memory::specs::Words::put_word, sb_memory::specs::Words::put_bytes))]
fn put_number(memory: &mut Memory, place: PhysAddr, size: u8, number: u64)
    requires some { 0 < size }
    requires few { size ≤ 8 }
    requires within { place.0 + size ≤ PAGE_SIZE * frame_count memory.old }
    ensures { memory.new ≡ with_bytes memory.old (put_number memory.old.bytes place.0 size number) }
{
    if size == 8 && place.0 % 8 == 0 {
        memory.set_word(place, number);
    } else {
        let lowest_first = number.to_le_bytes();
        let (lowest, _) = lowest_first.split_at(usize::from(size));
        memory.set_bytes(place, lowest);
    }
}

/// Stores so many of the lowest bytes of a number at an address, where they lie in one page and the walk is not refused. Says
/// whether it did.
#[inline]
#[tactic(auto, using(crate::proofs::Numbers::number_stored))]
pub fn store_in_page(
    memory: &mut Memory,
    eptp: u64,
    cr3: u64,
    at: Linear,
    size: u8,
    number: u64,
) -> bool
    requires eptp { IsTrue (is_eptp eptp) }
    requires root { frame_in eptp < frame_count memory.old }
    requires some { 0 < size }
    requires few { size ≤ 8 }
    ensures answer { result ≡ true → store_answer (byte_for (view_byte (view memory.old eptp cr3)) Write) at.0 size ≡ Ok tt }
    ensures stored { result ≡ true → memory.new ≡ memory_stored (view memory.old eptp cr3) at.0 size number }
    ensures left { result ≡ false → memory.new ≡ memory.old }
    ensures frames { frame_count memory.new ≡ frame_count memory.old }
{
    match place_in_page(memory, eptp, cr3, at, u64::from(size), Access::Write) {
        Some(place) => {
            put_number(memory, place, size, number);
            true
        }
        None => false,
    }
}
