//! The page tables of a process.

ghost use Rattle.std.specs.Prelude.{ℕ, ◌≡◌, ◌≢◌, ◌+◌, ◌*◌, ◌/◌, ◌%◌, ◌^◌, ◌<◌, length, IsErr};
ghost use Rattle.sb_memory.specs.declared.page.TheConstants.{PAGE_SIZE};
ghost use Rattle.sb_memory.specs.Physical.{HasSize};
ghost use Rattle.sb_memory.specs.Changes.{SameOutside};
ghost use Rattle.sb_memory.specs.Reading.{with_bytes};
ghost use Rattle.sb_memory.specs.Words.{put_word};
ghost use Rattle.sb_memory.specs.declared.address.Access.{Access};
ghost use Rattle.sb_pagewalk.specs.Windows.{IsInWindow};
ghost use Rattle.sb_pagewalk.specs.Building.{IsCleared, IsLinked};
ghost use Rattle.sb_pagewalk.specs.Standing.{AreFrames, HasTables};
ghost use Rattle.sb_pagewalk.specs.TableSet.{Maps, entry_to, no_pages, page_place, page_walked, place_in, set_frames, table_frame, walked_in, with_entry};

use crate::windows::{entered_at, page_table_of};
use sb_memory::{Frame, Linear, Memory, Phys, PhysAddr};
use sb_walks::index;

/// The frames of a set of page tables: a root, which is the PML4 table, and eleven tables.
///
/// The tables are numbered in this order: 0 the root; 1 the page-directory-pointer table; 2 and 3 the page directories of the
/// first and the second GiB; 4 to 11 the page tables of the eight windows at 0, 400000, 800000, C00000, 2000000, 3000000,
/// 4000000 and 70000000.
#[derive(Clone, Copy, Debug, PartialEq, Eq)]
pub struct TableSet {
    pub root: Frame,
    pub tables: [Frame; 11],
}

/// Present, writable and user: bits 0 to 2 of an entry.
const ALL_RIGHTS: u64 = 7;

impl TableSet {
    /// Makes the tables in twelve different frames of the memory. No address is translated, and only bytes of these frames
    /// change.
    pub fn build(memory: &mut Memory, root: Frame, tables: [Frame; 11]) -> TableSet
        requires { AreFrames (record { root = root; tables = tables }) memory.old }
        ensures set { result ≡ record { root = root; tables = tables } }
        ensures tables { HasTables result memory.new }
        ensures empty { (linear : ℕ) (access : Access) → IsErr (walked_in memory.new result linear access) }
        ensures maps { Maps memory.new result no_pages }
        ensures same { SameOutside (set_frames result) memory.old memory.new }
    {
        let set = TableSet { root, tables };
        set.clear(memory);
        set.link(memory);
        set
    }

    /// Puts zeros into all tables.
    fn clear(&self, memory: &mut Memory)
        requires eleven { length self.now.tables ≡ 11 }
        requires frames { AreFrames self.now memory.old }
        ensures cleared { IsCleared self.now memory.new 12 }
        ensures size { HasSize memory.new }
        ensures same { SameOutside (set_frames self.now) memory.old memory.new }
    {
        memory.clear_frame(self.root);
        for table in 1..12 {
            memory.clear_frame(self.frame(table));
        }
    }

    /// Enters each table but the root in the one above it.
    fn link(&self, memory: &mut Memory)
        requires eleven { length self.now.tables ≡ 11 }
        requires frames { AreFrames self.now memory.old }
        requires size { HasSize memory.old }
        requires cleared { IsCleared self.now memory.old 12 }
        ensures linked { IsLinked self.now memory.new 12 }
        ensures size { HasSize memory.new }
        ensures same { SameOutside (set_frames self.now) memory.old memory.new }
    {
        for table in 1..12 {
            let (parent, index) = entered_at(table);
            memory.set_word(self.place(parent, index), self.entry_to(table));
        }
    }

    /// The entry that leads to a table other than the root, with all rights.
    fn entry_to(&self, table: usize) -> u64
        requires not_root { table ≢ 0 }
        requires number { table < 12 }
        ensures { result ≡ entry_to self.now table }
    {
        self.frame(table).base().0 + ALL_RIGHTS
    }

    /// The frame of a table. Table 0 is the root.
    fn frame(&self, table: usize) -> Frame
        requires { table < 12 }
        ensures { result.0 ≡ table_frame self.now table }
    {
        if table == 0 {
            self.root
        } else {
            self.tables[table - 1]
        }
    }

    /// The place of an entry of a table.
    fn place(&self, table: usize, index: u64) -> PhysAddr
        requires table { table < 12 }
        requires index { index < 512 }
        ensures { result.0 ≡ place_in self.now table index }
    {
        self.frame(table).word(index)
    }

    /// The place of the lowest entry for an address.
    fn page_place(&self, at: Linear) -> PhysAddr
        requires { IsInWindow at.0 }
        ensures { result.0 ≡ page_place self.now at.0 }
    {
        self.place(page_table_of(at.page() / 512), index(1, at.0))
    }

    /// Sets the lowest entry for the page of an address. Every other page keeps its translation, or has none as before.
    pub fn set_page(&self, memory: &mut Memory, at: Linear, entry: u64)
        requires window { IsInWindow at.0 }
        requires tables { HasTables self.now memory.old }
        ensures entry { memory.new ≡ with_bytes memory.old (put_word memory.old.bytes (page_place self.now at.0) entry) }
        ensures tables { HasTables self.now memory.new }
        ensures page { (linear : ℕ) (access : Access) → linear / PAGE_SIZE ≡ at.0 / PAGE_SIZE
            → walked_in memory.new self.now linear access ≡ page_walked entry linear access }
        ensures others { (linear : ℕ) (access : Access) → linear / PAGE_SIZE ≢ at.0 / PAGE_SIZE
            → walked_in memory.new self.now linear access ≡ walked_in memory.old self.now linear access }
        ensures maps { (entries : ℕ → ℕ) → Maps memory.old self.now entries
            → Maps memory.new self.now (with_entry entries (at.0 / PAGE_SIZE) entry) }
    {
        memory.set_word(self.page_place(at), entry);
    }
}
