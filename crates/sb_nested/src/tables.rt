//! The guest's tables, read through the extended page tables.

ghost use Rattle.std.specs.Prelude.{◌<◌, IsTrue};
ghost use Rattle.sb_memory.specs.Physical.{frame_count};
ghost use Rattle.sb_walks.specs.Entry.{frame_in};
ghost use Rattle.sb_walks.specs.Ept.{is_eptp};

use sb_eptwalk::ept_walk;
use sb_memory::{Access, GuestPhys, Phys};
use sb_pagewalk::Tables;
use sb_walks::TableStop;

/// Page tables in a physical memory behind an EPT pointer.
#[derive(Drop)]
pub struct TablesBehindEpt<'a, P: Phys> {
    pub phys: &'a mut P,
    pub eptp: u64,
    ghost is_eptp: { IsTrue (is_eptp eptp) },
    ghost has_root: { frame_in eptp < frame_count (P.meaning phys.now) },
}

impl<'a, P: Phys> Tables for TablesBehindEpt<'a, P> {
    ghost use Rattle.std.specs.Prelude.{ℕ};
    ghost use Rattle.sb_walks.specs.Nested.{MemoryBehindEpt, entry_rule, guest_entry, memory_behind};

    ghost Meaning = { MemoryBehindEpt };

    ghost Account = { P.Account };

    ghost Kept = { ℕ × P.Kept };

    ghost meaning = { λ tables. memory_behind (P.meaning tables.phys.now) tables.eptp };

    ghost entries = { guest_entry };

    ghost account = { λ tables. P.account tables.phys.now };

    ghost rule = { entry_rule P.rule };

    ghost kept = { λ tables. (tables.phys.ghost_name, P.kept tables.phys.now) };

    /// The entry at a guest-physical place, which goes through the EPT for reading.
    #[tactic(auto, using(sb_memory::proofs::Accounts::after_words_append), unfolding(sb_walks::specs::Nested::entry_rule, sb_walks::specs::Nested::guest_entry, sb_walks::specs::Nested::guest_entry_reads))]
    fn entry(&mut self, at: GuestPhys) -> Result<u64, TableStop> {
        let place = match ept_walk(self.phys, self.eptp, at, Access::Read) {
            Ok(place) => place,
            Err(stop) => return Err(TableStop::Ept(stop)),
        };
        match self.phys.read_word(place) {
            Ok(entry) => Ok(entry),
            Err(gap) => Err(TableStop::Missing(gap.frame)),
        }
    }
}
