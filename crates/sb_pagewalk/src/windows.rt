//! The windows of a process: the 2 MiB regions of its address space that have a page table. Of the window of buffers that is the
//! first region, with the buffers of threads below `sb_abi::MAX_THREADS`.

ghost use Rattle.std.specs.Prelude.{◌≡◌, ◌≢◌, ◌<◌};
ghost use Rattle.sb_pagewalk.specs.Windows.{page_table_of};
ghost use Rattle.sb_pagewalk.specs.Building.{parent_of, slot_of};

use sb_abi::{
    BUFFERS_PAGE, DATA_PAGE, HEAP_PAGE, SERVER_STACKS_PAGE, STACKS_PAGE, TEXT_PAGE,
    TRAMPOLINE_PAGE, WINDOW_PAGES,
};

/// The regions of the windows, but for the first, of the rewrite area, and the last, of the trampoline.
const TEXT: u64 = TEXT_PAGE / WINDOW_PAGES;

const DATA: u64 = DATA_PAGE / WINDOW_PAGES;

const HEAP: u64 = HEAP_PAGE / WINDOW_PAGES;

const BUFFERS: u64 = BUFFERS_PAGE / WINDOW_PAGES;

const STACKS: u64 = STACKS_PAGE / WINDOW_PAGES;

const SERVER_STACKS: u64 = SERVER_STACKS_PAGE / WINDOW_PAGES;

/// The index of the last region in the directory of the second GiB.
const TRAMPOLINE: u64 = TRAMPOLINE_PAGE / WINDOW_PAGES % 512;

/// The number of the page table of a 2 MiB region, which is a window.
#[tactic(auto, using(crate::proofs::Regions::page_table_small), unfolding(crate::specs::Windows::page_table_of))]
pub fn page_table_of(region: u64) -> usize
    requires { page_table_of region ≢ 0 }
    ensures number { result ≡ page_table_of region }
    ensures below { result < 12 }
{
    match region {
        0 => 4,
        TEXT => 5,
        DATA => 6,
        HEAP => 7,
        BUFFERS => 8,
        STACKS => 9,
        SERVER_STACKS => 10,
        _ => 11,
    }
}

/// Where a table other than the root is entered: the number of the table above it, and the index there. A page table stands
/// in the directory of its GiB, at the number of its region there.
#[tactic(auto, unfolding(crate::specs::Building::parent_of, crate::specs::Building::slot_of))]
pub fn entered_at(table: usize) -> (usize, u64)
    requires not_root { table ≢ 0 }
    requires number { table < 12 }
    ensures parent { result.0 ≡ parent_of table }
    ensures slot { result.1 ≡ slot_of table }
    ensures upper { result.0 < 4 }
    ensures within { result.1 < 512 }
{
    match table {
        1 => (0, 0),
        2 => (1, 0),
        3 => (1, 1),
        4 => (2, 0),
        5 => (2, TEXT),
        6 => (2, DATA),
        7 => (2, HEAP),
        8 => (2, BUFFERS),
        9 => (2, STACKS),
        10 => (2, SERVER_STACKS),
        _ => (3, TRAMPOLINE),
    }
}
