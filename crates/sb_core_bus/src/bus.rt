//! The bus of a core.

ghost use Rattle.std.specs.Prelude.{◌≡◌, ◌<◌, IsTrue};
ghost use Rattle.sb_memory.specs.Physical.{frame_count};
ghost use Rattle.sb_walks.specs.Entry.{frame_in};
ghost use Rattle.sb_walks.specs.Ept.{is_eptp};

use crate::number::{load_in_page, store_in_page};
use sb_bus::{Bus, BusStop};
use sb_memory::{Access, Linear, Memory};
use sb_nested::NestedBus;

/// A memory that has all its frames, as an instruction sees it through an EPT pointer and a CR3.
#[derive(Drop)]
pub struct CoreBus<'a> {
    memory: &'a mut Memory,
    eptp: u64,
    cr3: u64,
    ghost is_eptp: { IsTrue (is_eptp eptp) },
    ghost has_root: { frame_in eptp < frame_count memory.now },
}

impl<'a> CoreBus<'a> {
    /// Borrows a memory.
    pub fn new(memory: &'a mut Memory, eptp: u64, cr3: u64) -> CoreBus<'a>
        requires eptp { IsTrue (is_eptp eptp) }
        requires root { frame_in eptp < frame_count memory.old }
        ensures loan { result.memory.ghost_name ≡ memory.entry.ghost_name }
        ensures memory { result.memory.now ≡ memory.old }
        ensures eptp { result.eptp ≡ eptp }
        ensures cr3 { result.cr3 ≡ cr3 }
    {
        CoreBus { memory, eptp, cr3 }
    }
}

impl<'a> Bus for CoreBus<'a> {
    ghost use Rattle.std.specs.Prelude.{ℕ};
    ghost use Rattle.sb_nested.specs.View.{View, view};
    ghost use Rattle.sb_nested.specs.Store.{view_interface};
    ghost use Rattle.sb_core_bus.specs.Account.{no_account};

    ghost Meaning = { View };

    ghost Account = { Unit {0} };

    ghost Kept = { ℕ × ℕ × ℕ };

    ghost interface = { view_interface no_account };

    ghost meaning = { λ bus. view bus.memory.now bus.eptp bus.cr3 };

    ghost account = { λ _. tt };

    ghost kept = { λ bus. (bus.memory.ghost_name, bus.eptp, bus.cr3) };

    fn fetch(&mut self, at: Linear) -> Result<u8, BusStop> {
        NestedBus::new(self.memory, self.eptp, self.cr3).fetch(at)
    }

    fn load(&mut self, at: Linear, size: u8) -> Result<u64, BusStop> {
        match load_in_page(self.memory, self.eptp, self.cr3, at, size, Access::Read) {
            Some(number) => Ok(number),
            None => NestedBus::new(self.memory, self.eptp, self.cr3).load(at, size),
        }
    }

    #[tactic(auto, using(sb_nested::proofs::Writing::loaded_for_write))]
    fn load_for_write(&mut self, at: Linear, size: u8) -> Result<u64, BusStop> {
        match load_in_page(self.memory, self.eptp, self.cr3, at, size, Access::Write) {
            Some(number) => Ok(number),
            None => NestedBus::new(self.memory, self.eptp, self.cr3).load_for_write(at, size),
        }
    }

    fn store(&mut self, at: Linear, size: u8, value: u64) -> Result<(), BusStop> {
        if store_in_page(self.memory, self.eptp, self.cr3, at, size, value) {
            Ok(())
        } else {
            NestedBus::new(self.memory, self.eptp, self.cr3).store(at, size, value)
        }
    }
}
