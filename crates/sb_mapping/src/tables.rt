//! The page tables of a process at its start.

ghost use Rattle.std.specs.Prelude.{ℕ, ◌≡◌, ◌+◌, ◌<◌, ◌≤◌, length};
ghost use Rattle.sb_abi.specs.declared.frames.TheConstants.{KEPT_FRAMES};
ghost use Rattle.sb_abi.specs.declared.space.TheConstants.{MAX_PROCESSES};
ghost use Rattle.sb_memory.specs.Physical.{frame_count};
ghost use Rattle.sb_memory.specs.Changes.{SameOutside};
ghost use Rattle.sb_frames.specs.Book.{Book, free_count};
ghost use Rattle.sb_pagewalk.specs.Standing.{HasTables};
ghost use Rattle.sb_pagewalk.specs.TableSet.{set_frames, table_frame};
ghost use Rattle.sb_root.specs.Standing.{IsBooked, Stands};
ghost use Rattle.sb_shows.specs.Placement.{Placement};
ghost use Rattle.sb_shows.specs.Starts.{ExposesTables};
ghost use Rattle.sb_mapping.specs.StartPages.{IsOver};
ghost use Rattle.sb_mapping.specs.StartTables.{AddedTables, HasFreeRoots, MapsOwnPages, TakesFrames};

use crate::entry::page_entry;
use sb_abi::{
    FIRST_ROOT, RECORD_ADDRESS, RECORD_GUEST_PAGE, SCRATCH_ADDRESS, SCRATCH_GUEST_PAGE,
    TRAMPOLINE_ADDRESS, TRAMPOLINE_GUEST_PAGE,
};
use sb_frames::{FrameBook, Kind};
use sb_memory::{Frame, Linear, Memory};
use sb_pagewalk::TableSet;
use sb_root::{RIGHT_READ, RootKernel};
use sb_state::Mode;

/// The tables of a process but for the root.
const TABLES: usize = 11;

/// Takes frames for the tables of a process but for the root.
fn take_tables(book: &mut FrameBook, process: u32) -> [Frame; TABLES]
    requires { TABLES ≤ free_count book.old }
    ensures taken { TakesFrames book.old book.new result TABLES }
    ensures eleven { length result ≡ TABLES }
{
    let mut tables = [Frame(0); TABLES];
    for table in 0..TABLES {
        tables[table] = book.take_free(Kind::GuestTable, process);
    }
    tables
}

/// Sets the entries of the three pages that each view has of its own.
fn map_own_pages(set: &TableSet, memory: &mut Memory)
    requires eleven { length set.now.tables ≡ TABLES }
    requires tables { HasTables set.now memory.old }
    ensures mapped { MapsOwnPages set.now memory.old memory.new }
    ensures same { SameOutside (set_frames set.now) memory.old memory.new }
{
    set.set_page(
        memory,
        Linear(SCRATCH_ADDRESS),
        page_entry(SCRATCH_GUEST_PAGE, Mode::ReadWrite),
    );
    set.set_page(
        memory,
        Linear(RECORD_ADDRESS),
        page_entry(RECORD_GUEST_PAGE, Mode::Read),
    );
    set.set_page(
        memory,
        Linear(TRAMPOLINE_ADDRESS),
        page_entry(TRAMPOLINE_GUEST_PAGE, Mode::Fetch),
    );
}

/// Lets each table but the root be read, by walks behind an EPT.
fn expose_tables(set: &TableSet, memory: &mut Memory, root: &mut RootKernel)
    requires eleven { length set.now.tables ≡ TABLES }
    requires above { (table : ℕ) → 1 ≤ table → table < TABLES + 1 → KEPT_FRAMES ≤ table_frame set.now table }
    requires inside { (table : ℕ) → table < TABLES + 1 → table_frame set.now table < frame_count memory.old }
    requires stands { Stands root.old memory.old }
    ensures root { root.new ≡ root.old }
    ensures exposed { ExposesTables root.old set.now 1 TABLES memory.old memory.new }
    ensures booked { (book : Book) → IsBooked root.old book memory.old → IsBooked root.new book memory.new }
{
    for table in 0..TABLES {
        root.expose(memory, set.tables[table], RIGHT_READ);
    }
}

/// Adds the tables of a process: they are built, lead to the pages that each view has of its own, and are exposed.
pub fn add_tables(
    memory: &mut Memory,
    book: &mut FrameBook,
    root: &mut RootKernel,
    process: u32,
) -> TableSet
    requires few { process < MAX_PROCESSES }
    requires some { TABLES ≤ free_count book.old }
    requires stands { Stands root.old memory.old }
    requires booked { IsBooked root.old book.old memory.old }
    ensures root { root.new ≡ root.old }
    ensures booked { IsBooked root.new book.new memory.new }
    ensures fewer { free_count book.new + TABLES ≡ free_count book.old }
    ensures tables { (placement : Placement) → IsOver placement root.old book.old → HasFreeRoots placement process
        → AddedTables placement process root.old book.new memory.old memory.new result }
{
    let tables = take_tables(book, process);
    let set = TableSet::build(memory, Frame(FIRST_ROOT + process), tables);
    map_own_pages(&set, memory);
    expose_tables(&set, memory, root);
    set
}
