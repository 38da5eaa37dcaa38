//! The bytes of VMFUNC, `0F 01 D4`, in a heap page and across its borders.

ghost use Rattle.std.specs.Prelude.{◌≡◌, ◌<◌, ◌≤◌, ◌+◌, ◌-◌, ◌*◌, ◌^◌, ◌++◌, IfSome, length, drop};
ghost use Rattle.sb_memory.specs.declared.page.TheConstants.{PAGE_SIZE};
ghost use Rattle.sb_pages.specs.declared.page.PageName.TheVariants.{Heap};
ghost use Rattle.sb_pages.specs.PageLists.{find_page};
ghost use Rattle.sb_state.specs.Pattern.{executable_bytes, bytes_before, bytes_behind, heap_pattern};

use crate::plain_state::PlainState;
use sb_abi::HEAP_ADDRESS;
use sb_pages::{PAGE_SIZE, PageName};
use sb_scan::first_place;

/// The bytes of a heap page that is executable; none of another.
fn executable_bytes(state: &PlainState, process: u32, page: u32) -> &[u8]
    ensures size { length result.now ≤ PAGE_SIZE }
    ensures bytes { result.now ≡ executable_bytes (find_page state.now.pages (Heap process page)) }
{
    match state.pages.find(PageName::Heap(process, page)) {
        Some(page) if page.executable => page.bytes.items(),
        _ => &[],
    }
}

/// The last two bytes of a page; none of no bytes.
pub fn last_two(bytes: &[u8]) -> &[u8]
    requires { length bytes.now ≤ PAGE_SIZE }
    ensures bytes { result.now ≡ drop (PAGE_SIZE - 2) bytes.now }
    ensures size { length result.now ≤ 2 }
{
    let start = (PAGE_SIZE - 2).min(bytes.len());
    &bytes[start..]
}

/// The last two bytes of the page before, if there is one and it is executable.
fn bytes_before(state: &PlainState, process: u32, page: u32) -> &[u8]
    ensures bytes { result.now ≡ bytes_before state.now process page }
    ensures size { length result.now ≤ 2 }
{
    if page == 0 {
        return &[];
    }
    last_two(executable_bytes(state, process, page - 1))
}

/// The first two bytes of the page behind, if there is one and it is executable.
fn bytes_behind(state: &PlainState, process: u32, page: u32) -> &[u8]
    requires { page + 1 < 2 ^ 32 }
    ensures bytes { result.now ≡ bytes_behind state.now process page }
    ensures size { length result.now ≤ 2 }
{
    let bytes = executable_bytes(state, process, page + 1);
    &bytes[..2.min(bytes.len())]
}

impl PlainState {
    /// The lowest address at which the pattern stands in a heap page or across its border with an executable one.
    #[tactic(auto, using(crate::proofs::Pattern::first_place), unfolding(crate::specs::Pattern::heap_pattern))]
    pub fn heap_pattern(&self, process: u32, page: u32) -> Option<u64>
        requires { page + 1 < 2 ^ 32 }
        ensures { result ≡ heap_pattern self.now process page }
    {
        let found = self.pages.find(PageName::Heap(process, page))?;
        let before = bytes_before(self, process, page);
        let behind = bytes_behind(self, process, page);
        let place = first_place(before, found.bytes.items(), behind)?;
        let page_address = HEAP_ADDRESS + (PAGE_SIZE as u64) * u64::from(page);
        Some(page_address + (place as u64) - (before.len() as u64))
    }
}
