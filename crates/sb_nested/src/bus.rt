//! The bus of a core: its memory through the nested walk.

ghost use Rattle.std.specs.Prelude.{◌≡◌, ◌<◌, IsTrue};
ghost use Rattle.sb_memory.specs.Physical.{frame_count};
ghost use Rattle.sb_walks.specs.Entry.{frame_in};
ghost use Rattle.sb_walks.specs.Ept.{is_eptp};

use crate::nested::translate;
use crate::read::{byte, stop_at};
use crate::store_bytes::store_bytes;
use crate::store_word::store_word;
use crate::walk::Walk;
use sb_bus::{Bus, BusStop, ByteSource, load_bytes};
use sb_memory::{Access, Linear, Phys, PhysAddr};

/// Physical memory as an instruction sees it, through an EPT pointer and a CR3.
///
/// An address that is not canonical is a `Canon` fault, and every other refusal but a missing frame is a `Memory` fault. Bytes
/// are looked up and read from the lowest on. A store writes nothing before each of its bytes is known to be writable; a
/// whole word of memory is written as one, without being read.
#[derive(Drop)]
pub struct NestedBus<'a, P: Phys> {
    phys: &'a mut P,
    eptp: u64,
    cr3: u64,
    ghost is_eptp: { IsTrue (is_eptp eptp) },
    ghost has_root: { frame_in eptp < frame_count (P.meaning phys.now) },
}

impl<'a, P: Phys> NestedBus<'a, P> {
    /// Borrows a physical memory.
    pub fn new(phys: &'a mut P, eptp: u64, cr3: u64) -> NestedBus<'a, P>
        requires eptp { IsTrue (is_eptp eptp) }
        requires root { frame_in eptp < frame_count (P.meaning phys.old) }
        ensures loan { result.phys.ghost_name ≡ phys.entry.ghost_name }
        ensures memory { result.phys.now ≡ phys.old }
        ensures eptp { result.eptp ≡ eptp }
        ensures cr3 { result.cr3 ≡ cr3 }
    {
        NestedBus { phys, eptp, cr3 }
    }
}

impl<'a, P: Phys> Walk for NestedBus<'a, P> {
    ghost use Rattle.std.specs.Prelude.{ℕ};
    ghost use Rattle.sb_nested.specs.View.{view};

    ghost Account = { P.Account };

    ghost Kept = { ℕ × ℕ × ℕ × P.Kept };

    ghost view = { λ bus. view (P.meaning bus.phys.now) bus.eptp bus.cr3 };

    ghost account = { λ bus. P.account bus.phys.now };

    ghost kept = { λ bus. (bus.phys.ghost_name, bus.eptp, bus.cr3, P.kept bus.phys.now) };

    ghost rule = { P.rule };

    #[tactic(auto, using(crate::proofs::Places::calls_are_words, sb_walks::proofs::Page::place_offset), unfolding(crate::specs::View::walk_place, crate::specs::View::place_of))]
    fn place(&mut self, at: Linear, access: Access) -> Result<PhysAddr, BusStop> {
        match translate(self.phys, self.eptp, self.cr3, at, access) {
            Ok(place) => Ok(place),
            Err(stop) => Err(stop_at(at, stop)),
        }
    }

    fn read_byte(&mut self, place: PhysAddr) -> Result<u8, BusStop> {
        match self.phys.read_byte(place) {
            Ok(byte) => Ok(byte),
            Err(gap) => Err(BusStop::Missing(gap.frame)),
        }
    }

    #[tactic(auto, using(crate::proofs::Stores::frames_after))]
    fn write_byte(&mut self, place: PhysAddr, byte: u8) {
        let _ = self.phys.write_byte(place, byte);
    }

    #[tactic(auto, using(crate::proofs::Stores::frames_after_word))]
    fn write_word(&mut self, place: PhysAddr, word: u64) -> Result<(), BusStop> {
        match self.phys.write_word(place, word) {
            Ok(()) => Ok(()),
            Err(gap) => Err(BusStop::Missing(gap.frame)),
        }
    }
}

impl<'a, P: Phys> ByteSource for NestedBus<'a, P> {
    ghost use Rattle.std.specs.Prelude.{ℕ};
    ghost use Rattle.sb_nested.specs.View.{View, view, view_byte};
    ghost use Rattle.sb_nested.specs.Store.{account_after_byte};

    ghost Meaning = { View };

    ghost Account = { P.Account };

    ghost Kept = { ℕ × ℕ × ℕ × P.Kept };

    ghost gives = { view_byte };

    ghost rule = { account_after_byte P.rule };

    ghost meaning = { λ bus. view (P.meaning bus.phys.now) bus.eptp bus.cr3 };

    ghost account = { λ bus. P.account bus.phys.now };

    ghost kept = { λ bus. (bus.phys.ghost_name, bus.eptp, bus.cr3, P.kept bus.phys.now) };

    fn byte(&mut self, at: Linear, access: Access) -> Result<u8, BusStop> {
        byte(self, at, access)
    }
}

impl<'a, P: Phys> Bus for NestedBus<'a, P> {
    ghost use Rattle.std.specs.Prelude.{ℕ};
    ghost use Rattle.sb_nested.specs.View.{View, view};
    ghost use Rattle.sb_nested.specs.Store.{view_interface};

    ghost Meaning = { View };

    ghost Account = { P.Account };

    ghost Kept = { ℕ × ℕ × ℕ × P.Kept };

    ghost interface = { view_interface P.rule };

    ghost meaning = { λ bus. view (P.meaning bus.phys.now) bus.eptp bus.cr3 };

    ghost account = { λ bus. P.account bus.phys.now };

    ghost kept = { λ bus. (bus.phys.ghost_name, bus.eptp, bus.cr3, P.kept bus.phys.now) };

    #[tactic(auto, unfolding(crate::specs::Store::view_rule))]
    fn fetch(&mut self, at: Linear) -> Result<u8, BusStop> {
        byte(self, at, Access::Fetch)
    }

    #[tactic(auto, using(crate::proofs::Loads::load_account), unfolding(crate::specs::Store::view_rule))]
    fn load(&mut self, at: Linear, size: u8) -> Result<u64, BusStop> {
        load_bytes(self, at, size, Access::Read)
    }

    #[tactic(auto, using(crate::proofs::Writing::loaded_for_write, crate::proofs::Loads::load_account), unfolding(crate::specs::Store::view_rule))]
    fn load_for_write(&mut self, at: Linear, size: u8) -> Result<u64, BusStop> {
        load_bytes(self, at, size, Access::Write)
    }

    #[tactic(auto, unfolding(crate::specs::Store::view_rule, crate::specs::Store::store_rule, crate::specs::Store::memory_stored))]
    fn store(&mut self, at: Linear, size: u8, value: u64) -> Result<(), BusStop> {
        if size == 8 && at.0 % 8 == 0 {
            store_word(self, at, value)
        } else {
            store_bytes(self, at, size, value)
        }
    }
}
