//! The bus of a core.

ghost use Rattle.std.specs.Prelude.{◌≡◌, ◌<◌, IsTrue, None};
ghost use Rattle.sb_memory.specs.Physical.{frame_count};
ghost use Rattle.sb_walks.specs.Entry.{frame_in};
ghost use Rattle.sb_walks.specs.Ept.{is_eptp};
ghost use Rattle.sb_nested.specs.View.{view};
ghost use Rattle.sb_copy_bus.specs.MadeWalk.{LastIsMade};

use crate::byte::byte_at;
use crate::store_bytes::store_bytes;
use crate::store_word::store_word;
use crate::walk::MadeWalk;
use sb_bus::{Bus, BusStop, ByteSource, load_bytes};
use sb_memory::{Access, Linear};
use sb_partial::Partial;

/// Copies of frames, as an instruction sees them through an EPT pointer and a CR3, with the last walk that was made.
#[derive(Drop)]
pub struct CopyBus<'a> {
    part: &'a mut Partial,
    eptp: u64,
    cr3: u64,
    made: Option<MadeWalk>,
    ghost is_eptp: { IsTrue (is_eptp eptp) },
    ghost has_root: { frame_in eptp < frame_count part.now.memory },
    ghost is_made: { LastIsMade (view part.now.memory eptp cr3) part.now.noted made },
}

impl<'a> CopyBus<'a> {
    /// Borrows copies.
    pub fn new(part: &'a mut Partial, eptp: u64, cr3: u64) -> CopyBus<'a>
        requires eptp { IsTrue (is_eptp eptp) }
        requires root { frame_in eptp < frame_count part.old.memory }
        ensures loan { result.part.ghost_name ≡ part.entry.ghost_name }
        ensures copies { result.part.now ≡ part.old }
        ensures eptp { result.eptp ≡ eptp }
        ensures cr3 { result.cr3 ≡ cr3 }
    {
        CopyBus {
            part,
            eptp,
            cr3,
            made: None,
        }
    }
}

impl<'a> ByteSource for CopyBus<'a> {
    ghost use Rattle.std.specs.Prelude.{ℕ};
    ghost use Rattle.sb_memory.specs.Physical.{Physical};
    ghost use Rattle.sb_agree.specs.Noted.{Noted, noted_rule};
    ghost use Rattle.sb_nested.specs.View.{View, view, view_byte};
    ghost use Rattle.sb_nested.specs.Store.{account_after_byte};

    ghost Meaning = { View };

    ghost Account = { Noted };

    ghost Kept = { ℕ × ℕ × ℕ × Physical × Noted };

    ghost gives = { view_byte };

    ghost rule = { account_after_byte noted_rule };

    ghost meaning = { λ bus. view bus.part.now.memory bus.eptp bus.cr3 };

    ghost account = { λ bus. bus.part.now.noted };

    ghost kept = { λ bus. (bus.part.ghost_name, bus.eptp, bus.cr3, bus.part.now.given, bus.part.now.began) };

    fn byte(&mut self, at: Linear, access: Access) -> Result<u8, BusStop> {
        byte_at(self.part, self.eptp, self.cr3, &mut self.made, at, access)
    }
}

impl<'a> Bus for CopyBus<'a> {
    ghost use Rattle.std.specs.Prelude.{ℕ};
    ghost use Rattle.sb_memory.specs.Physical.{Physical};
    ghost use Rattle.sb_agree.specs.Noted.{Noted, noted_rule};
    ghost use Rattle.sb_nested.specs.View.{View, view};
    ghost use Rattle.sb_nested.specs.Store.{view_interface};

    ghost Meaning = { View };

    ghost Account = { Noted };

    ghost Kept = { ℕ × ℕ × ℕ × Physical × Noted };

    ghost interface = { view_interface noted_rule };

    ghost meaning = { λ bus. view bus.part.now.memory bus.eptp bus.cr3 };

    ghost account = { λ bus. bus.part.now.noted };

    ghost kept = { λ bus. (bus.part.ghost_name, bus.eptp, bus.cr3, bus.part.now.given, bus.part.now.began) };

    #[tactic(auto, unfolding(sb_nested::specs::Store::view_rule))]
    fn fetch(&mut self, at: Linear) -> Result<u8, BusStop> {
        self.byte(at, Access::Fetch)
    }

    #[tactic(auto, using(sb_nested::proofs::Loads::load_account), unfolding(sb_nested::specs::Store::view_rule))]
    fn load(&mut self, at: Linear, size: u8) -> Result<u64, BusStop> {
        load_bytes(self, at, size, Access::Read)
    }

    #[tactic(auto, using(sb_nested::proofs::Writing::loaded_for_write, sb_nested::proofs::Loads::load_account), unfolding(sb_nested::specs::Store::view_rule))]
    fn load_for_write(&mut self, at: Linear, size: u8) -> Result<u64, BusStop> {
        load_bytes(self, at, size, Access::Write)
    }

    #[tactic(auto, unfolding(sb_nested::specs::Store::view_rule, sb_nested::specs::Store::store_rule, sb_nested::specs::Store::memory_stored))]
    fn store(&mut self, at: Linear, size: u8, value: u64) -> Result<(), BusStop> {
        if size == 8 && at.0 % 8 == 0 {
            store_word(self.part, self.eptp, self.cr3, &mut self.made, at, value)
        } else {
            store_bytes(
                self.part,
                self.eptp,
                self.cr3,
                &mut self.made,
                at,
                size,
                value,
            )
        }
    }
}
