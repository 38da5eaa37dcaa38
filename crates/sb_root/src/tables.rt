//! The tables of an EPT.

ghost use Rattle.std.specs.Prelude.{ℕ, ◌≡◌, ◌≢◌, ◌+◌, ◌<◌, [], ◌∷◌, length, get_or};
ghost use Rattle.sb_abi.specs.declared.layout.TheConstants.{FIRST_REGION_TABLE};
ghost use Rattle.sb_memory.specs.Physical.{HasSize, frame_count};
ghost use Rattle.sb_memory.specs.Changes.{SameOutside};
ghost use Rattle.sb_root.specs.Entry.{link_to};
ghost use Rattle.sb_root.specs.Tables.{IsPage, upper_entries, directory_entries};
ghost use Rattle.sb_root.specs.declared.tables.TheConstants.{REGIONS};

use crate::entry::link;
use crate::page::put_page;
use sb_abi::{BASE_DIRECTORY, BASE_POINTERS, BASE_ROOT, FIRST_REGION_TABLE};
use sb_memory::{Frame, Memory};

/// The tables of an EPT that are its own, by their frames. Levels run from 4, the PML4 table, to 1.
///
/// The tables of level 1 for all but the first 2 MiB are the base's, and every EPT leads to them. So a page behind the first
/// 2 MiB is mapped in all views by one entry.
#[derive(Clone, Copy, Debug, PartialEq, Eq)]
pub struct ViewTables {
    /// Level 4.
    pub root: Frame,
    /// Level 3.
    pub pointers: Frame,
    /// Level 2.
    pub directory: Frame,
    /// Level 1, for the first 2 MiB.
    pub first: Frame,
}

/// The tables of the base.
pub const BASE: ViewTables = ViewTables {
    root: Frame(BASE_ROOT),
    pointers: Frame(BASE_POINTERS),
    directory: Frame(BASE_DIRECTORY),
    first: Frame(FIRST_REGION_TABLE),
};

/// How many times 2 MiB the largest memory has.
pub const REGIONS: usize = 16;

/// The frame of the base's table of level 1 for a region of 2 MiB.
pub fn region_table(region: usize) -> Frame
    requires { region < REGIONS }
    ensures { result.0 ≡ FIRST_REGION_TABLE + region }
{
    Frame(BASE.first.0 + region as u32)
}

impl ViewTables {
    /// Writes the tables of levels 4, 3 and 2.
    pub fn put_upper(&self, memory: &mut Memory)
        requires inside { (self.now.root.0 < frame_count memory.old) × (self.now.pointers.0 < frame_count memory.old)
            × (self.now.directory.0 < frame_count memory.old) }
        requires different { (self.now.root.0 ≢ self.now.pointers.0) × (self.now.root.0 ≢ self.now.directory.0)
            × (self.now.pointers.0 ≢ self.now.directory.0) }
        ensures root { IsPage memory.new self.now.root.0 (upper_entries self.now.pointers.0) }
        ensures pointers { IsPage memory.new self.now.pointers.0 (upper_entries self.now.directory.0) }
        ensures directory { IsPage memory.new self.now.directory.0 (directory_entries self.now.first.0) }
        ensures size { HasSize memory.new }
        ensures same { SameOutside (self.now.root.0 ∷ self.now.pointers.0 ∷ self.now.directory.0 ∷ []) memory.old memory.new }
    {
        put_page(memory, self.root, &[link(self.pointers)]);
        put_page(memory, self.pointers, &[link(self.directory)]);
        put_page(memory, self.directory, &self.directory_entries());
    }

    /// The first entries of the table of level 2, one for each region.
    fn directory_entries(&self) -> [u64; REGIONS]
        ensures { (index : ℕ) → get_or result index 0 ≡ directory_entries self.now.first.0 index }
    {
        let mut entries = [link(self.first); REGIONS];
        for region in 1..REGIONS {
            entries[region] = link(region_table(region));
        }
        entries
    }
}
