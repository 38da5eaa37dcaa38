//! Walks through whole memory, and through memory that misses a frame and notes its calls.

use crate::same::assert_same;
use crate::sparse::{Sparse, put, some_memory};
use sb_eptwalk::{EptStop, ept_walk, is_eptp};
use sb_memory::{Access, Frame, GuestPhys, Memory, Phys, PhysAddr};

/// The tables stand in frames 1 to 4; the memory has 8 frames.
const EPTP: u64 = 0x101E;

/// The entries for this address have the indices 1, 2, 3 and 4, from level 4 down.
const AT: u64 = 0x80_8060_4123;

/// Where these entries stand.
const PLACES: [u64; 4] = [0x1008, 0x2010, 0x3018, 0x4020];

/// Puts the four entries for the address.
fn put_entries(memory: &mut Memory, entries: [u64; 4]) {
    let [fourth, third, second, first] = entries;
    let [at_fourth, at_third, at_second, at_first] = PLACES;
    put(memory, at_fourth, fourth);
    put(memory, at_third, third);
    put(memory, at_second, second);
    put(memory, at_first, first);
}

/// The answer of a walk, if the word is an EPT pointer to a table in the memory.
fn walk_from<P: Phys>(
    phys: &mut P,
    eptp: u64,
    at: u64,
    access: Access,
) -> Option<Result<PhysAddr, EptStop>> {
    if !is_eptp(eptp) || (eptp >> 12) & 0xFF_FFFF_FFFF >= u64::from(phys.frames()) {
        return None;
    }
    Some(ept_walk(phys, eptp, GuestPhys(at), access))
}

/// Words, and whether each is an EPT pointer.
#[rattlefmt::skip]
const POINTERS: [(&str, u64, bool); 8] = [
    ("the table in frame 5", 0x501E, true),
    ("another walk length", 0x5016, false),
    ("another memory type", 0x5018, false),
    ("accessed and dirty flags", 0x505E, false),
    ("zero", 0, false),
    ("the last address", 0x000F_FFFF_FFFF_F01E, true),
    ("an address past bit 51", 0x0010_0000_0000_501E, false),
    ("bit 63", 0x8000_0000_0000_501E, false),
];

#[test]
fn tells_an_ept_pointer(rt: HostRuntime) {
    for (shows, word, answer) in &POINTERS {
        assert_same(&rt, shows, &is_eptp(*word), answer);
    }
}

/// Addresses, and the answers of their walks.
#[rattlefmt::skip]
const ADDRESSES: [(&str, u64, Result<PhysAddr, EptStop>); 8] = [
    ("in the page", AT, Ok(PhysAddr(0x5123))),
    ("the last byte of the page", 0x80_8060_4FFF, Ok(PhysAddr(0x5FFF))),
    ("the next page", 0x80_8060_5000, Err(EptStop::NotPresent { level: 1 })),
    ("the next page table", 0x80_8080_4123, Err(EptStop::NotPresent { level: 2 })),
    ("the next page directory", 0x80_C060_4123, Err(EptStop::NotPresent { level: 3 })),
    ("the last address of 48 bits", 0xFFFF_FFFF_FFFF, Err(EptStop::NotPresent { level: 4 })),
    ("49 bits", 0x1_0000_0000_0000, Err(EptStop::TooWide)),
    ("the address with bit 63", 0x8000_0080_8060_4123, Err(EptStop::TooWide)),
];

#[test]
fn judges_the_address(rt: HostRuntime) {
    let mut memory = some_memory(rt.alloc(), 8).expect(&rt, "memory");
    put_entries(&mut memory, [0x2007, 0x3007, 0x4007, 0x5037]);
    for &(shows, at, answer) in &ADDRESSES {
        let found = walk_from(&mut memory, EPTP, at, Access::Read);
        assert_same(&rt, shows, &found, &Some(answer));
    }
}

/// The byte of the address, where the walk ends at frame 5.
const PAGE: Result<PhysAddr, EptStop> = Ok(PhysAddr(0x5123));

/// Entries from level 4 down, an access, and the answer of its walk.
#[rattlefmt::skip]
const ENTRIES: [(&str, [u64; 4], Access, Result<PhysAddr, EptStop>); 20] = [
    ("all rights", [0x2007, 0x3007, 0x4007, 0x5037], Access::Write, PAGE),
    ("bits 63 to 52 are no address", [0x2007, 0x3007, 0x4007, 0xFFF0_0000_0000_5037], Access::Fetch, PAGE),
    ("bit 7 at levels 4 and 1", [0x2087, 0x3007, 0x4007, 0x50B7], Access::Read, PAGE),
    ("execute alone, a fetch", [0x2007, 0x3007, 0x4007, 0x5034], Access::Fetch, PAGE),
    ("execute alone, a read", [0x2007, 0x3007, 0x4007, 0x5034], Access::Read, Err(EptStop::Denied { level: 1 })),
    ("write without read, a read", [0x2007, 0x3007, 0x4007, 0x5032], Access::Read, Err(EptStop::Misconfigured { level: 1 })),
    ("write without read, a write", [0x2007, 0x3007, 0x4007, 0x5032], Access::Write, Err(EptStop::Misconfigured { level: 1 })),
    ("write without read, a fetch", [0x2007, 0x3007, 0x4007, 0x5032], Access::Fetch, Err(EptStop::Misconfigured { level: 1 })),
    ("write and execute without read, at level 4", [0x2006, 0x3007, 0x4007, 0x5037], Access::Fetch,
        Err(EptStop::Misconfigured { level: 4 })),
    ("an uncacheable page", [0x2007, 0x3007, 0x4007, 0x5007], Access::Read, Err(EptStop::Misconfigured { level: 1 })),
    ("no fetch at level 2", [0x2007, 0x3007, 0x4003, 0x5037], Access::Fetch, Err(EptStop::Denied { level: 2 })),
    ("no write at level 4", [0x2005, 0x3007, 0x4007, 0x5037], Access::Write, Err(EptStop::Denied { level: 4 })),
    ("no read at level 3", [0x2007, 0x3004, 0x4007, 0x5037], Access::Read, Err(EptStop::Denied { level: 3 })),
    ("not present before large", [0x2007, 0x3080, 0x4007, 0x5037], Access::Read, Err(EptStop::NotPresent { level: 3 })),
    ("misconfigured before large", [0x2007, 0x3082, 0x4007, 0x5037], Access::Read, Err(EptStop::Misconfigured { level: 3 })),
    ("large before outside, at level 3", [0x2007, 0x8087, 0x4007, 0x5037], Access::Read, Err(EptStop::Large { level: 3 })),
    ("large before denied, at level 2", [0x2007, 0x3007, 0x4081, 0x5037], Access::Write, Err(EptStop::Large { level: 2 })),
    ("outside before denied", [0x2007, 0x3007, 0x8001, 0x5037], Access::Write, Err(EptStop::Outside { level: 2 })),
    ("the last frame", [0x2007, 0x3007, 0x4007, 0x7037], Access::Read, Ok(PhysAddr(0x7123))),
    ("the frame past the last", [0x2007, 0x3007, 0x4007, 0x8037], Access::Read, Err(EptStop::Outside { level: 1 })),
];

#[test]
fn the_first_refusal_is_the_answer(rt: HostRuntime) {
    let mut memory = some_memory(rt.alloc(), 8).expect(&rt, "memory");
    for &(shows, entries, access, answer) in &ENTRIES {
        put_entries(&mut memory, entries);
        let found = walk_from(&mut memory, EPTP, AT, access);
        assert_same(&rt, shows, &found, &Some(answer));
    }
}

/// The answer of a walk for the address in a memory that misses a frame, and the places of the entries that it read.
fn walk_without(
    memory: &mut Memory,
    missing: u32,
) -> (Option<Result<PhysAddr, EptStop>>, [u64; 8]) {
    let mut sparse = Sparse::without(memory, missing);
    let answer = walk_from(&mut sparse, EPTP, AT, Access::Read);
    (answer, sparse.places)
}

/// Missing frames, the answers of walks for the address, and the places of the entries that they read.
#[rattlefmt::skip]
const READS: [(&str, u32, Result<PhysAddr, EptStop>, [u64; 8]); 6] = [
    ("no table is missing", 6, PAGE, [0x1008, 0x2010, 0x3018, 0x4020, 0, 0, 0, 0]),
    ("the page itself is not read", 5, PAGE, [0x1008, 0x2010, 0x3018, 0x4020, 0, 0, 0, 0]),
    ("the table of level 1", 4, Err(EptStop::Missing(Frame(4))), [0x1008, 0x2010, 0x3018, 0x4020, 0, 0, 0, 0]),
    ("the table of level 2", 3, Err(EptStop::Missing(Frame(3))), [0x1008, 0x2010, 0x3018, 0, 0, 0, 0, 0]),
    ("the table of level 3", 2, Err(EptStop::Missing(Frame(2))), [0x1008, 0x2010, 0, 0, 0, 0, 0, 0]),
    ("the table of level 4", 1, Err(EptStop::Missing(Frame(1))), [0x1008, 0, 0, 0, 0, 0, 0, 0]),
];

#[test]
fn reads_no_entry_past_a_refusal(rt: HostRuntime) {
    let mut memory = some_memory(rt.alloc(), 8).expect(&rt, "memory");
    put_entries(&mut memory, [0x2007, 0x3007, 0x4007, 0x5037]);
    for &(shows, frame, answer, places) in &READS {
        let found = walk_without(&mut memory, frame);
        assert_same(&rt, shows, &found, &(Some(answer), places));
    }
}
