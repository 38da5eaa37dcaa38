//! Pages by name, and words in them.

use crate::same::assert_same;
use sb_state::{PageName, Pages};
use std::alloc::{AllocError, Global};
use std::test::Fail;

/// The page that is there.
const PAGE: PageName = PageName::Heap(0, 0);

/// One page, with two words from byte 8 on, and a third that was put behind them.
fn one_page(alloc: Global) -> Result<Pages, AllocError> {
    let mut pages = Pages::new(alloc);
    pages.reserve(alloc, 1)?;
    pages.add(PAGE, 8, &[0x1122_3344_5566_7788, 1]);
    pages.put_word(PAGE, 24, 9);
    Ok(pages)
}

/// The word at a place of a page, if eight bytes of the page stand there.
fn word_at(pages: &Pages, page: PageName, place: usize) -> Option<u64> {
    if place > 4088 {
        return None;
    }
    Some(pages.word(page, place))
}

/// Pages, places in them, and the words there.
#[rattlefmt::skip]
const WORDS: [(&str, PageName, usize, u64); 6] = [
    ("before the words", PAGE, 0, 0),
    ("the first word", PAGE, 8, 0x1122_3344_5566_7788),
    ("across two words, the lowest byte first", PAGE, 9, 0x0111_2233_4455_6677),
    ("the second word", PAGE, 16, 1),
    ("a word that was put", PAGE, 24, 9),
    ("a page that is not there", PageName::Heap(0, 1), 8, 0),
];

#[test]
fn pages_are_added_and_changed(rt: HostRuntime) -> Result<(), Fail> {
    let mut pages = one_page(rt.alloc())?;
    for &(name, page, place, word) in &WORDS {
        assert_same(&rt, name, &word_at(&pages, page, place), &Some(word));
    }
    pages.set_executable(PAGE, true);
    let executable = pages.find(PAGE).map(|found| found.executable);
    assert_same(&rt, "executable", &executable, &Some(true));
    Ok(())
}
