//! Page tables read straight from memory.

ghost use Rattle.std.specs.Prelude.{◌≡◌};

use crate::tables::Tables;
use sb_memory::{EptStop, GuestPhys, Memory, PAGE_SIZE, Phys, PhysAddr};
use sb_walks::TableStop;

/// The tables of a memory, with each guest-physical address taken for the physical one.
///
/// At a place that does not lie in the memory it answers `TableStop::Ept(EptStop::Outside { level: 1 })`.
#[derive(Drop)]
pub struct Direct<'a> {
    pub memory: &'a mut Memory,
}

impl<'a> Direct<'a> {
    /// Borrows a memory.
    pub fn new(memory: &'a mut Memory) -> Direct<'a>
        ensures loan { result.memory.ghost_name ≡ memory.entry.ghost_name }
        ensures memory { result.memory.now ≡ memory.old }
    {
        Direct { memory }
    }
}

impl Tables for Direct<'_> {
    ghost use Rattle.std.specs.Prelude.{ℕ};
    ghost use Rattle.sb_memory.specs.Physical.{Physical};
    ghost use Rattle.sb_pagewalk.specs.Direct.{direct_entry, nothing_noted};

    ghost Meaning = { Physical };

    ghost Account = { Unit {0} };

    ghost Kept = { ℕ };

    ghost meaning = { λ direct. direct.memory.now };

    ghost entries = { direct_entry };

    ghost account = { λ direct. tt };

    ghost rule = { nothing_noted };

    ghost kept = { λ direct. direct.memory.ghost_name };

    #[tactic(auto, unfolding(crate::specs::Direct::direct_entry))]
    fn entry(&mut self, at: GuestPhys) -> Result<u64, TableStop> {
        if at.0 < PAGE_SIZE * u64::from(self.memory.frames()) {
            Ok(self.memory.word(PhysAddr(at.0)))
        } else {
            Err(TableStop::Ept(EptStop::Outside { level: 1 }))
        }
    }
}
