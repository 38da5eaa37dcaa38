//! Views: EPTs that equal the base but for four pages.

ghost use Rattle.std.specs.Prelude.{ℕ, ◌≡◌, ◌≢◌, ◌+◌, ◌<◌, ◌≤◌, length, get_or};
ghost use Rattle.sb_abi.specs.declared.layout.TheConstants.{LAST_ROOT};
ghost use Rattle.sb_memory.specs.Physical.{HasSize, HoldsBytes, frame_count};
ghost use Rattle.sb_memory.specs.Changes.{SameOutside};
ghost use Rattle.sb_tramp.specs.Record.{record_bytes, words_of};
ghost use Rattle.sb_root.specs.Tables.{HasTables, IsPage, base_entries, from_start, view_entries};
ghost use Rattle.sb_root.specs.Root.{AreDifferent, entry_of_view, view_frames};
ghost use Rattle.sb_root.specs.Calls.{IsZeroed};

use crate::entry::{RIGHT_EXECUTE, RIGHT_READ, RIGHT_READ_WRITE, eptp, leaf};
use crate::page::put_page;
use crate::tables::ViewTables;
use sb_abi::{
    FIRST_ROOT, HOME_TRAMPOLINE_FRAME, LAST_ROOT, RECORD_GUEST_PAGE, SCRATCH_GUEST_PAGE,
    SERVER_TRAMPOLINE_FRAME, TRAMPOLINE_GUEST_PAGE,
};
use sb_memory::{Frame, Memory};
use sb_tramp::RecordWords;

/// How many pages at the start of the guest-physical addresses the base and views map by entries of their own.
const LOW_PAGES: usize = LAST_ROOT as usize + 1;

/// A view of a thread, by its frames and by what it shows.
#[derive(Clone, Copy, Debug, PartialEq, Eq)]
pub struct View {
    pub tables: ViewTables,
    /// Read at guest-physical 2000.
    pub record_page: Frame,
    /// Read and written at guest-physical 3000.
    pub scratch_page: Frame,
    /// The page of the thread's CR3.
    pub home_root: Frame,
    /// Where the page of CR3 leads: the root of the page tables of the process that the view shows.
    pub target_root: Frame,
    /// Whether guest-physical 1000 is the server trampoline page, and not the home one.
    pub server: bool,
    /// Whether its pointer stands in the thread's list. The frames of a view whose entry was cleared are still taken.
    pub listed: bool,
}

impl View {
    /// The entry of the thread's list: the EPT pointer of the view, or 0 where it was cleared.
    pub fn list_entry(&self) -> u64
        ensures { result ≡ entry_of_view self.now }
    {
        if self.listed {
            eptp(self.tables.root)
        } else {
            0
        }
    }

    /// Writes the tables, the record page and the scratch page.
    pub fn put(&self, memory: &mut Memory, words: &RecordWords)
        requires inside { (part : ℕ) → part < 6 → get_or (view_frames self.now) part 0 < frame_count memory.old }
        requires different { AreDifferent (view_frames self.now) }
        requires home { self.now.home_root.0 < LAST_ROOT + 1 }
        ensures tables { HasTables memory.new self.now.tables (view_entries self.now) }
        ensures words { IsPage memory.new self.now.record_page.0 (from_start (words_of words.now)) }
        ensures record_bytes { HoldsBytes memory.new self.now.record_page.0 (record_bytes words.now) }
        ensures scratch { IsZeroed memory.new self.now.scratch_page.0 }
        ensures size { HasSize memory.new }
        ensures same { SameOutside (view_frames self.now) memory.old memory.new }
    {
        self.tables.put_upper(memory);
        put_page(memory, self.tables.first, &self.low_entries());
        put_page(memory, self.record_page, &words.in_order());
        memory.clear_frame(self.scratch_page);
    }

    /// The lowest entries of the pages that the view maps by entries of its own.
    fn low_entries(&self) -> [u64; LOW_PAGES]
        requires { self.now.home_root.0 < LAST_ROOT + 1 }
        ensures { (page : ℕ) → get_or result page 0 ≡ view_entries self.now page }
    {
        let mut entries = [0; LOW_PAGES];
        for page in 0..LOW_PAGES {
            entries[page] = self.low_entry(page as u32);
        }
        entries
    }

    /// The lowest entry of a page: the base's but for four pages.
    #[tactic(auto, unfolding(crate::specs::Tables::view_entries))]
    fn low_entry(&self, page: u32) -> u64
        ensures { result ≡ view_entries self.now page }
    {
        if page == self.home_root.0 {
            return leaf(self.target_root, RIGHT_READ);
        }
        match page {
            TRAMPOLINE_GUEST_PAGE if self.server => {
                leaf(Frame(SERVER_TRAMPOLINE_FRAME), RIGHT_EXECUTE)
            },
            TRAMPOLINE_GUEST_PAGE => leaf(Frame(HOME_TRAMPOLINE_FRAME), RIGHT_EXECUTE),
            RECORD_GUEST_PAGE => leaf(self.record_page, RIGHT_READ),
            SCRATCH_GUEST_PAGE => leaf(self.scratch_page, RIGHT_READ_WRITE),
            _ => base_entry(page),
        }
    }
}

/// The lowest entries of the pages that the base maps by entries of its own.
pub fn base_entries() -> [u64; LOW_PAGES]
    ensures { (page : ℕ) → get_or result page 0 ≡ base_entries page }
{
    let mut entries = [0; LOW_PAGES];
    for page in 0..LOW_PAGES {
        entries[page] = base_entry(page as u32);
    }
    entries
}

/// The lowest entry of a page of the base: the home trampoline page, and the roots of page tables.
#[tactic(auto, unfolding(crate::specs::Tables::base_entries))]
fn base_entry(page: u32) -> u64
    ensures { result ≡ base_entries page }
{
    match page {
        TRAMPOLINE_GUEST_PAGE => leaf(Frame(HOME_TRAMPOLINE_FRAME), RIGHT_EXECUTE),
        FIRST_ROOT..=LAST_ROOT => leaf(Frame(page), RIGHT_READ),
        _ => 0,
    }
}
