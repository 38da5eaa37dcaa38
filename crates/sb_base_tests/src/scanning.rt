//! Where the bytes of VMFUNC are found, and where not.

use crate::same::assert_same;
use sb_scan::{find_pattern, first_place, patterns, spans};
use std::test::Fail;

/// Names, bytes, and the first place.
#[rattlefmt::skip]
const FIRST: [(&str, &[u8], Option<usize>); 6] = [
    ("no byte", &[], None),
    ("the pattern alone", &[0x0F, 0x01, 0xD4], Some(0)),
    ("inside an immediate", &[0xB8, 0x0F, 0x01, 0xD4, 0x00], Some(1)),
    ("behind its own first byte", &[0x0F, 0x0F, 0x01, 0xD4], Some(1)),
    ("two of its bytes", &[0x0F, 0x01], None),
    ("VMCALL", &[0x0F, 0x01, 0xC1], None),
];

#[test]
fn finds_the_first_place(rt: HostRuntime) {
    for (name, bytes, place) in &FIRST {
        assert_same(&rt, name, &find_pattern(bytes), place);
    }
}

/// Names, bytes, and all places.
#[rattlefmt::skip]
const ALL: [(&str, &[u8], &[usize]); 3] = [
    ("none", &[0x0F, 0x05], &[]),
    ("one behind the other", &[0x0F, 0x01, 0xD4, 0x0F, 0x01, 0xD4], &[0, 3]),
    ("one before the end", &[0x0F, 0x01, 0xD4, 0x0F, 0x01], &[0]),
];

#[test]
fn finds_all_places(rt: HostRuntime) -> Result<(), Fail> {
    for (name, bytes, places) in &ALL {
        let found = patterns(rt.alloc(), bytes)?;
        assert_same(&rt, name, &found.as_slice(), places);
    }
    Ok(())
}

/// Names, bytes before the border and after it, and how many of the pattern are before it.
#[rattlefmt::skip]
const BORDERS: [(&str, &[u8], &[u8], Option<usize>); 8] = [
    ("one byte before", &[0x0F], &[0x01, 0xD4], Some(1)),
    ("whatever stands before it", &[0xD4, 0x0F, 0x01, 0x0F], &[0x01, 0xD4, 0x90], Some(1)),
    ("two bytes before", &[0x0F, 0x01], &[0xD4], Some(2)),
    ("not yet whole", &[0x0F], &[0x01], None),
    ("whole before", &[0x0F, 0x01, 0xD4], &[0x90], None),
    ("whole behind", &[0x90], &[0x0F, 0x01, 0xD4], None),
    ("nothing before", &[], &[0x0F, 0x01, 0xD4], None),
    ("nothing behind", &[0x0F, 0x01], &[], None),
];

#[test]
fn sees_the_pattern_across_a_border(rt: HostRuntime) {
    for (name, left, right, before) in &BORDERS {
        assert_same(&rt, name, &spans(left, right), before);
    }
}

/// Names, bytes with those before and after them, and the first place.
#[rattlefmt::skip]
const AROUND: [(&str, &[u8], &[u8], &[u8], Option<usize>); 6] = [
    ("across the prefix", &[0x90, 0x0F], &[0x01, 0xD4, 0x0F, 0x01, 0xD4], &[], Some(1)),
    ("inside", &[0x90, 0x90], &[0x90, 0x0F, 0x01, 0xD4], &[0x01, 0xD4], Some(3)),
    ("across the end", &[], &[0x90, 0x0F, 0x01], &[0xD4, 0x90], Some(1)),
    ("one byte across the end", &[0x0F], &[0x90, 0x0F], &[0x01, 0xD4], Some(2)),
    ("nowhere", &[0x0F, 0x01], &[0x90, 0x0F], &[0x01, 0xD5], None),
    ("no others", &[], &[0x0F, 0x01], &[], None),
];

#[test]
fn finds_the_first_place_around_borders(rt: HostRuntime) {
    for (name, before, bytes, behind, place) in &AROUND {
        let fits = before.len() <= 2 && bytes.len() >= 2 && behind.len() <= 2;
        assert_same(&rt, name, &fits, &true);
        if fits {
            assert_same(&rt, name, &first_place(before, bytes, behind), place);
        }
    }
}
