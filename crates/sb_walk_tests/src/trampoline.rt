//! The trampoline pages: rows of the tables against their bytes, and each call once.

use crate::same::assert_same;
use sb_decode::decode;
use sb_tramp::{KeyWords, LandingRow, RecordWords, landing_row, put_home, put_server};
use std::test::Fail;

/// The home page.
fn home_page() -> [u8; 4096] {
    let mut page = [0; 4096];
    put_home(&mut page);
    page
}

/// The server page.
fn server_page() -> [u8; 4096] {
    let mut page = [0; 4096];
    put_server(&mut page);
    page
}

/// Whether these bytes stand at a place of a page.
fn stand_at(page: &[u8], place: usize, wanted: &[u8]) -> bool {
    match page.get(place..) {
        Some(rest) => rest.starts_with(wanted),
        None => false,
    }
}

/// Offsets in the home page, and the bytes there.
#[rattlefmt::skip]
const HOME: [(&str, usize, &[u8]); 5] = [
    ("the save page is read from the record", 0x00, &[0x48, 0x8B, 0x04, 0x25]),
    ("the jump over the gap", 0x27, &[0xEB, 0x17, 0xCC, 0xCC]),
    ("the gap ends at the switch", 0x3F, &[0xCC, 0x0F, 0x01, 0xD4]),
    ("the return ends the code", 0x66, &[0x4C, 0x89, 0xC8, 0xC3, 0xCC]),
    ("the page ends with CC", 0xFFE, &[0xCC, 0xCC]),
];

#[test]
fn the_home_page_has_its_bytes(rt: HostRuntime) {
    let page = home_page();
    for (name, offset, bytes) in &HOME {
        assert_same(&rt, name, &stand_at(&page, *offset, bytes), &true);
    }
}

/// Offsets in the server page, and the bytes there.
#[rattlefmt::skip]
const SERVER: [(&str, usize, &[u8]); 6] = [
    ("the way back begins", 0x00, &[0x48, 0x8D, 0x4C, 0x24, 0xF8]),
    ("the gap ends at the switch", 0x3F, &[0xCC, 0x0F, 0x01, 0xD4]),
    ("the key is compared behind the switch", 0x43, &[0x48, 0x3B, 0x34, 0x25]),
    ("the handler is entered", 0x87, &[0xFF, 0x24, 0x25, 0x10, 0x20, 0x00, 0x70]),
    ("the refusal goes home", 0xA3, &[0xEB, 0x9B, 0xCC]),
    ("the page ends with CC", 0xFFE, &[0xCC, 0xCC]),
];

#[test]
fn the_server_page_has_its_bytes(rt: HostRuntime) {
    let page = server_page();
    for (name, offset, bytes) in &SERVER {
        assert_same(&rt, name, &stand_at(&page, *offset, bytes), &true);
    }
}

/// Phases of a landing, and where their instructions stand.
#[rattlefmt::skip]
const PHASES: [(&str, u8, Option<LandingRow>); 8] = [
    ("the key is compared", 0, Some(LandingRow { offset: 0x43, length: 8 })),
    ("a stack is taken", 8, Some(LandingRow { offset: 0x65, length: 10 })),
    ("the handler is entered", 16, Some(LandingRow { offset: 0x87, length: 7 })),
    ("a wrong key", 17, Some(LandingRow { offset: 0x8E, length: 6 })),
    ("the jump home", 23, Some(LandingRow { offset: 0xA3, length: 2 })),
    ("the switch home", 24, Some(LandingRow { offset: 0x40, length: 3 })),
    ("no phase", 25, None),
    ("no phase, the greatest number", 255, None),
];

#[test]
fn phases_stand_at_their_offsets(rt: HostRuntime) {
    for (name, phase, row) in &PHASES {
        assert_same(&rt, name, &landing_row(*phase), row);
    }
}

/// Whether the instruction of a phase is valid, and as long as its row says.
fn decodes_whole(page: &[u8], phase: u8) -> bool {
    let Some(LandingRow { offset, length }) = landing_row(phase) else {
        return false;
    };
    let Some(bytes) = page.get(offset as usize..) else {
        return false;
    };
    match decode(bytes) {
        Ok((insn, decoded)) => insn.is_valid() && decoded == length as usize,
        Err(_) => false,
    }
}

#[test]
fn each_phase_decodes_with_its_length(rt: HostRuntime) {
    let page = server_page();
    for phase in 0u8..25 {
        assert!(rt; decodes_whole(&page, phase), "{phase}");
    }
}

/// What two draws give, and how many words are left then.
fn two_draws(mut words: KeyWords) -> ([Option<u64>; 2], u32) {
    let drawn = [words.draw(), words.draw()];
    (drawn, words.left())
}

#[test]
fn words_are_drawn_in_order(rt: HostRuntime) -> Result<(), Fail> {
    let one = two_draws(KeyWords::new(vec![in rt.alloc(); 5]?));
    assert_same(&rt, "one word", &one, &([Some(5), None], 0));
    let three = two_draws(KeyWords::new(vec![in rt.alloc(); 7, 5, 7]?));
    assert_same(&rt, "three words", &three, &([Some(7), Some(5)], 1));
    Ok(())
}

#[test]
fn record_words_stand_in_their_order(rt: HostRuntime) {
    let words = RecordWords {
        key: 0xFEED,
        base: 0x400_3FF8,
        handler: 0x40_0017,
        thread: 3,
        save: 0,
        home: 2,
    };
    let expected = [0xFEED, 0x400_3FF8, 0x40_0017, 3, 0, 2];
    assert_same(&rt, "words", &words.in_order(), &expected);
}
