//! Where the instructions of a rewritten text and its slots stand.

ghost use Rattle.std.specs.Prelude.{◌≡◌, IfOk, List, ℕ};
ghost use Rattle.sb_slots.specs.Marks.{
  IsOrdered,
  is_in_area,
  is_in_text,
  is_in_slot,
  is_start,
  is_replaced,
  is_main,
  is_constant,
  is_vmfunc,
  is_later_nop,
  follows,
  goes_on,
  is_lost,
  is_of_text,
  is_extra,
  mark,
};
ghost use Rattle.sb_slots.specs.TextMap.{map_from_parts};

use crate::mark::Mark;
use crate::slot::{Pass, Slot};
use crate::starts::Starts;
use sb_abi::{AREA_ADDRESS, AREA_PAGES, TEXT_ADDRESS};
use sb_memory::PAGE_SIZE;
use std::alloc::{AllocError, Global};
use std::marker::Model;

/// The address behind the rewrite area.
const AREA_END: u64 = AREA_ADDRESS + AREA_PAGES * PAGE_SIZE;

/// Where the instructions of a text start, and what stands in place of those that were replaced: to contracts, lists.
#[derive(Debug, Drop)]
pub struct TextMap {
    starts: Starts,
    size: u64,
    area_size: u64,
    slots: Vec<Slot>,
    passes: Vec<Pass>,
    vmfuncs: Vec<u64>,
}

impl Model for TextMap {
    ghost use Rattle.sb_slots.specs.TextMap.{TextMap};
    ghost use Rattle.sb_slots.specs.Marks.{IsOrdered};

    ghost Value = { TextMap };

    ghost view = { λ map. record {
      starts = map.starts;
      size = map.size;
      area_size = map.area_size;
      slots = map.slots.items;
      passes = map.passes.items;
      vmfuncs = map.vmfuncs.items;
    } };

    ghost invariant = { λ map. IsOrdered (record {
      starts = map.starts;
      size = map.size;
      area_size = map.area_size;
      slots = map.slots.items;
      passes = map.passes.items;
      vmfuncs = map.vmfuncs.items;
    }) };
}

impl TextMap {
    /// The map of a text with so many bytes, in whose rewrite area so many bytes belong to slots: slots in the order of their
    /// starts, their passes, and the addresses where three NOPs stand in place of VMFUNC.
    pub fn new(
        starts: Starts,
        size: u64,
        area_size: u64,
        slots: Vec<Slot>,
        passes: Vec<Pass>,
        vmfuncs: Vec<u64>,
    ) -> TextMap
        requires { IsOrdered (map_from_parts starts size area_size slots.items passes.items vmfuncs.items) }
        ensures { result ≡ map_from_parts starts size area_size slots.items passes.items vmfuncs.items }
    {
        TextMap {
            starts,
            size,
            area_size,
            slots,
            passes,
            vmfuncs,
        }
    }

    /// The same in memory of its own.
    pub fn copied(&self, alloc: Global) -> Result<TextMap, AllocError>
        ensures { IfOk result (λ copy. copy ≡ self.now) }
    {
        Ok(TextMap {
            starts: self.starts.copied(alloc)?,
            size: self.size,
            area_size: self.area_size,
            slots: Vec::from_slice(alloc, &self.slots)?,
            passes: Vec::from_slice(alloc, &self.passes)?,
            vmfuncs: Vec::from_slice(alloc, &self.vmfuncs)?,
        })
    }

    /// The addresses at which instructions of the text start.
    pub fn starts(&self) -> &Starts
        ensures { result.now ≡ self.now.starts }
    {
        &self.starts
    }

    /// The slots, in the order of the starts for which they stand.
    pub fn slots(&self) -> &[Slot]
        ensures { result.now ≡ self.now.slots }
    {
        &self.slots
    }

    /// Whether an instruction of the text starts at the address.
    #[inline(always)]
    pub fn is_start(&self, at: u64) -> bool
        ensures { result ≡ is_start self.now at }
    {
        self.starts.contains(at)
    }

    /// Whether one of the text's bytes stands at the address.
    fn is_in_text(&self, at: u64) -> bool
        ensures { result ≡ is_in_text self.now at }
    {
        at >= TEXT_ADDRESS && at - TEXT_ADDRESS < self.size
    }

    /// Whether one of a slot's bytes stands at the address.
    fn is_in_slot(&self, at: u64) -> bool
        ensures { result ≡ is_in_slot self.now at }
    {
        at >= AREA_ADDRESS && at - AREA_ADDRESS < self.area_size
    }

    /// Whether a jump to a slot stands at the address.
    fn is_replaced(&self, at: u64) -> bool
        ensures { result ≡ is_replaced self.now at }
    {
        self.slots
            .binary_search_by_key(&at, |slot| slot.start)
            .is_ok()
    }

    /// Whether the instruction at the address does the work of a slot.
    fn is_main(&self, at: u64) -> bool
        ensures { result ≡ is_main self.now at }
    {
        self.slots
            .binary_search_by_key(&at, |slot| slot.main)
            .is_ok()
    }

    /// Whether it loads the number of a constant.
    fn is_constant(&self, at: u64) -> bool
        ensures { result ≡ is_constant self.now at }
    {
        match self.slots.binary_search_by_key(&at, |slot| slot.main) {
            Ok(index) => self.slots[index].loads_constant,
            Err(_) => false,
        }
    }

    /// Whether three NOPs begin at the address, in place of VMFUNC.
    fn is_vmfunc(&self, at: u64) -> bool
        ensures { result ≡ is_vmfunc self.now at }
    {
        self.vmfuncs.binary_search_by_key(&at, |one| *one).is_ok()
    }

    /// Whether the second or third of these NOPs stands at the address.
    fn is_later_nop(&self, at: u64) -> bool
        ensures { result ≡ is_later_nop self.now at }
    {
        self.is_vmfunc(at.saturating_sub(1)) || self.is_vmfunc(at.saturating_sub(2))
    }

    /// Whether a slot has an instruction at the one address and its next one at the other.
    fn follows(&self, at: u64, next: u64) -> bool
        ensures { result ≡ follows self.now at next }
    {
        match self.passes.binary_search_by_key(&at, |pass| pass.from) {
            Ok(index) => self.passes[index].to == next,
            Err(_) => false,
        }
    }

    /// Whether a step goes on to the next instruction of its own slot.
    fn goes_on(&self, at: u64, next: u64) -> bool
        ensures { result ≡ goes_on self.now at next }
    {
        self.follows(at, next)
            || next > at
                && next - at == 1
                && (self.is_vmfunc(at) || self.is_vmfunc(at.saturating_sub(1)))
    }

    /// Whether a step leads into a slot, or between the instructions of the text, and what it stands in does not say so.
    fn is_lost(&self, at: u64, next: u64) -> bool
        ensures { result ≡ is_lost self.now at next }
    {
        (is_in_area(next) || self.is_in_text(next) && !self.is_start(next))
            && !(self.is_replaced(at) || self.goes_on(at, next))
    }

    /// Whether accesses of an instruction are the original text's.
    fn is_of_text(&self, at: u64) -> bool
        ensures { result ≡ is_of_text self.now at }
    {
        self.is_main(at) && !self.is_constant(at)
            || self.is_start(at)
            || !(is_in_area(at) || self.is_in_text(at))
    }

    /// Whether an instruction is none of the original text, but belongs to what stands in place of one.
    fn is_extra(&self, at: u64) -> bool
        ensures { result ≡ is_extra self.now at }
    {
        self.is_replaced(at) || self.is_in_slot(at) && !self.is_main(at) || self.is_later_nop(at)
    }

    /// What the step of an instruction is to the original text, where RIP is `next` after it. `scratch` says whether it
    /// accessed the scratch page.
    pub fn mark(&self, at: u64, next: u64, scratch: bool) -> Mark
        ensures { result ≡ mark self.now at next scratch }
    {
        if self.is_lost(at, next) || scratch && self.is_of_text(at) {
            return Mark::Stray;
        }
        if self.is_extra(at) {
            return Mark::Extra;
        }
        Mark::Step
    }
}

/// Whether the address lies in the rewrite area.
fn is_in_area(at: u64) -> bool
    ensures { result ≡ is_in_area at }
{
    AREA_ADDRESS <= at && at < AREA_END
}
