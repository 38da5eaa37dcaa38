//! What threads reach, on both machines.

use crate::nested::{Nested, View, Words};
use sb_abi::{
    BUFFERS_ADDRESS, DATA_ADDRESS, HEAP_ADDRESS, SERVER_STACKS_ADDRESS, STACKS_ADDRESS,
    TEXT_ADDRESS, TRAMPOLINE_ADDRESS,
};
use sb_memory::{Access, Linear};
use sb_state::{PlainState, page_for_access};
use std::process::Abort;

/// The regions of 2 MiB for which a process has page tables (docs/LAYOUT.md, "Page tables"). The first has the rewrite area.
const REGIONS: [u64; 8] = [
    0,
    TEXT_ADDRESS,
    DATA_ADDRESS,
    HEAP_ADDRESS,
    BUFFERS_ADDRESS,
    STACKS_ADDRESS,
    SERVER_STACKS_ADDRESS,
    TRAMPOLINE_ADDRESS,
];

/// All accesses.
const ACCESSES: [Access; 3] = [Access::Read, Access::Write, Access::Fetch];

/// The bytes of the page that an access reaches in plain memory.
fn plain_page(state: &PlainState, view: View, at: Linear, access: Access) -> Option<&[u8]> {
    let (thread, index) = (u32::from(view.thread), u32::from(view.index));
    match page_for_access(state, thread, index, at, access) {
        Ok((_, page)) => Some(page.bytes.items()),
        Err(_) => None,
    }
}

/// Stops the test where an access to a page is refused on one machine alone, or reaches other bytes.
fn assert_same_page(
    rt: &impl Abort,
    state: &PlainState,
    nested: &mut Nested,
    view: View,
    words: Words,
    at: Linear,
) {
    for access in ACCESSES {
        let expected = plain_page(state, view, at, access);
        let found = nested.page(words, at, access);
        assert!(rt; found == expected, "{access:?} at {:x} in {view:?}", at.0);
    }
}

/// The same for each page of the regions, and for the process that is shown.
fn assert_same_view(
    rt: &impl Abort,
    state: &PlainState,
    nested: &mut Nested,
    view: View,
    words: Words,
) {
    assert_eq!(rt; nested.shown(view), plain_shown(state, view), "{view:?}");
    for region in REGIONS {
        for page in 0..512 {
            let at = Linear(region).further(4096 * page);
            assert_same_page(rt, state, nested, view, words, at);
        }
    }
}

/// The process that a view of the plain machine shows, if there is such a view.
fn plain_shown(state: &PlainState, view: View) -> Option<u32> {
    let thread = state.thread(view.thread);
    if view.index == 0 {
        return Some(thread.home);
    }
    match thread.bindings.find(u32::from(view.index)) {
        Some(binding) => Some(binding.server),
        None => None,
    }
}

/// Stops the test where there is a view on one machine alone, or where it reaches other bytes.
fn assert_same_entry(rt: &impl Abort, state: &PlainState, nested: &mut Nested, view: View) {
    let words = nested.words(view);
    assert_eq!(rt;
        words.is_some(),
        plain_shown(state, view).is_some(),
        "{view:?}"
    );
    if let Some(words) = words {
        assert_same_view(rt, state, nested, view, words);
    }
}

/// Stops the test where threads do not reach the same bytes on both machines, each in each of its views, by each access.
pub fn assert_same_memory(rt: &impl Abort, state: &PlainState, nested: &mut Nested) {
    for thread in 0..nested.threads() {
        for index in 0..512 {
            assert_same_entry(rt, state, nested, View { thread, index });
        }
    }
}
