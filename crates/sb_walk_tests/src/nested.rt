//! Walks, and a bus, through two trees of tables that stand in one memory.

ghost use Rattle.std.specs.Prelude.{◌≡◌, ◌==◌, ◌||◌};

use crate::same::assert_same;
use crate::sparse::{Sparse, put, some_memory};
use sb_bus::{Bus, BusStop, FaultKind};
use sb_eptwalk::is_eptp;
use sb_memory::{Access, EptStop, Frame, Linear, Memory, Phys, PhysAddr};
use sb_nested::{NestedBus, NestedStop, translate};
use sb_walks::{TableStop, WalkStop};

/// The EPT stands in frames 1 to 4; the memory has 16 frames.
const EPTP: u64 = 0x101E;

/// The root of the guest's tables, a guest-physical address, which the EPT puts at frame 8.
const CR3: u64 = 0x10000;

/// The guest's entries for this address have the indices 1, 2, 3 and 4, from level 4 down.
const AT: u64 = 0x80_8060_4123;

/// The words of both trees and their places. The EPT puts the guest-physical pages 10 to 14 at frames 8 to 12; the guest's
/// tables stand in the first four of these pages, and the page of the address is the last.
const TREES: [(u64, u64); 12] = [
    (0x1000, 0x2007),
    (0x2000, 0x3007),
    (0x3000, 0x4007),
    (0x4080, 0x8037),
    (0x4088, 0x9037),
    (0x4090, 0xA037),
    (0x4098, 0xB037),
    (0x40A0, 0xC037),
    (0x8008, 0x11007),
    (0x9010, 0x12007),
    (0xA018, 0x13007),
    (0xB020, 0x14007),
];

/// Puts the words of both trees.
fn put_trees(memory: &mut Memory) {
    for &(place, word) in &TREES {
        put(memory, place, word);
    }
}

/// The answer of a walk, if the EPT pointer leads to a table in the memory.
fn walk_from<P: Phys>(
    phys: &mut P,
    eptp: u64,
    at: u64,
    access: Access,
) -> Option<Result<PhysAddr, NestedStop>> {
    if !is_eptp(eptp) || (eptp >> 12) & 0xFF_FFFF_FFFF >= u64::from(phys.frames()) {
        return None;
    }
    Some(translate(phys, eptp, CR3, Linear(at), access))
}

/// The byte of the address, where both trees permit the access.
const PAGE: Result<PhysAddr, NestedStop> = Ok(PhysAddr(0xC123));

/// A word that is put over one of the trees, an access, and the answer of its walk.
type Refusal = (&'static str, u64, u64, Access, Result<PhysAddr, NestedStop>);

/// Each level of each tree may refuse.
#[rattlefmt::skip]
const REFUSALS: [Refusal; 21] = [
    ("a read", 0x40A0, 0xC037, Access::Read, PAGE),
    ("a write", 0x40A0, 0xC037, Access::Write, PAGE),
    ("a fetch", 0x40A0, 0xC037, Access::Fetch, PAGE),
    ("the guest's level 4", 0x8008, 0, Access::Read, Err(NestedStop::Walk(WalkStop::NotPresent { level: 4 }))),
    ("the guest's level 3", 0x9010, 0x12003, Access::Read, Err(NestedStop::Walk(WalkStop::Denied { level: 3 }))),
    ("the guest's level 2", 0xA018, 0x13087, Access::Read, Err(NestedStop::Walk(WalkStop::Large { level: 2 }))),
    ("the guest's level 1", 0xB020, 0x14005, Access::Write, Err(NestedStop::Walk(WalkStop::Denied { level: 1 }))),
    ("level 4 of the EPT", 0x1000, 0, Access::Read,
        Err(NestedStop::Walk(WalkStop::Table(TableStop::Ept(EptStop::NotPresent { level: 4 }))))),
    ("level 3 of the EPT", 0x2000, 0x3006, Access::Read,
        Err(NestedStop::Walk(WalkStop::Table(TableStop::Ept(EptStop::Misconfigured { level: 3 }))))),
    ("level 2 of the EPT", 0x3000, 0x4087, Access::Read,
        Err(NestedStop::Walk(WalkStop::Table(TableStop::Ept(EptStop::Large { level: 2 }))))),
    ("level 1 of the EPT, for the guest's level 4", 0x4080, 0x10037, Access::Read,
        Err(NestedStop::Walk(WalkStop::Table(TableStop::Ept(EptStop::Outside { level: 1 }))))),
    ("level 1 of the EPT, for the guest's level 3", 0x4088, 0x9034, Access::Fetch,
        Err(NestedStop::Walk(WalkStop::Table(TableStop::Ept(EptStop::Denied { level: 1 }))))),
    ("level 1 of the EPT, for the guest's level 2", 0x4090, 0xA007, Access::Read,
        Err(NestedStop::Walk(WalkStop::Table(TableStop::Ept(EptStop::Misconfigured { level: 1 }))))),
    ("level 1 of the EPT, for the guest's level 1", 0x4098, 0xB030, Access::Read,
        Err(NestedStop::Walk(WalkStop::Table(TableStop::Ept(EptStop::NotPresent { level: 1 }))))),
    ("level 1 of the EPT, for the page", 0x40A0, 0xC034, Access::Read, Err(NestedStop::Page(EptStop::Denied { level: 1 }))),
    ("a page to fetch alone", 0x40A0, 0xC034, Access::Fetch, PAGE),
    ("a page to read alone", 0x40A0, 0xC031, Access::Write, Err(NestedStop::Page(EptStop::Denied { level: 1 }))),
    ("no fetch at level 2 of the EPT, which entries do not need", 0x3000, 0x4003, Access::Fetch,
        Err(NestedStop::Page(EptStop::Denied { level: 2 }))),
    ("a write through tables that can only be read", 0x4098, 0xB031, Access::Write, PAGE),
    ("a table past 48 bits", 0x8008, 0x0001_0000_0000_0007, Access::Read,
        Err(NestedStop::Walk(WalkStop::Table(TableStop::Ept(EptStop::TooWide))))),
    ("a page past 48 bits", 0xB020, 0x0001_0000_0000_0007, Access::Read, Err(NestedStop::Page(EptStop::TooWide))),
];

#[test]
fn each_level_of_each_tree_may_refuse(rt: HostRuntime) {
    let mut memory = some_memory(rt.alloc(), 16).expect(&rt, "memory");
    for &(shows, place, word, access, answer) in &REFUSALS {
        put_trees(&mut memory);
        put(&mut memory, place, word);
        let found = walk_from(&mut memory, EPTP, AT, access);
        assert_same(&rt, shows, &found, &Some(answer));
    }
    let found = walk_from(&mut memory, EPTP, 0x8000_0000_0000, Access::Read);
    let refused = Some(Err(NestedStop::Walk(WalkStop::NonCanonical)));
    assert_same(&rt, "not canonical", &found, &refused);
}

/// The answer of a walk for the address in a memory that misses a frame, and the places of the first words that it read.
fn walk_without(
    memory: &mut Memory,
    missing: u32,
) -> (Option<Result<PhysAddr, NestedStop>>, [u64; 8]) {
    let mut sparse = Sparse::without(memory, missing);
    let answer = walk_from(&mut sparse, EPTP, AT, Access::Read);
    (answer, sparse.places)
}

/// The places of the first words, where no table is missing for them.
const FIRST: [u64; 8] = [
    0x1000, 0x2000, 0x3000, 0x4080, 0x8008, 0x1000, 0x2000, 0x3000,
];

/// Missing frames, the answers of walks for the address, and the places of the first words that they read.
#[rattlefmt::skip]
const READS: [(&str, u32, Result<PhysAddr, NestedStop>, [u64; 8]); 6] = [
    ("no table is missing", 15, PAGE, FIRST),
    ("the page itself is not read", 12, PAGE, FIRST),
    ("the guest's table of level 1", 11, Err(NestedStop::Walk(WalkStop::Table(TableStop::Missing(Frame(11))))), FIRST),
    ("the guest's table of level 3", 9, Err(NestedStop::Walk(WalkStop::Table(TableStop::Missing(Frame(9))))), FIRST),
    ("the guest's table of level 4", 8,
        Err(NestedStop::Walk(WalkStop::Table(TableStop::Missing(Frame(8))))), [0x1000, 0x2000, 0x3000, 0x4080, 0x8008, 0, 0, 0]),
    ("the table of level 2 of the EPT", 3,
        Err(NestedStop::Walk(WalkStop::Table(TableStop::Ept(EptStop::Missing(Frame(3)))))),
        [0x1000, 0x2000, 0x3000, 0, 0, 0, 0, 0]),
];

#[test]
fn reads_each_entry_through_the_ept(rt: HostRuntime) {
    let mut memory = some_memory(rt.alloc(), 16).expect(&rt, "memory");
    put_trees(&mut memory);
    for &(shows, frame, answer, places) in &READS {
        let found = walk_without(&mut memory, frame);
        assert_same(&rt, shows, &found, &(Some(answer), places));
    }
}

/// A call of a bus, for tables of rows.
#[derive(Clone, Copy)]
enum Call {
    Fetch,
    Load(u8),
    LoadForWrite(u8),
    Store(u8, u64),
}

/// The number that a call gives, 0 for a store, if the size is one of a bus.
fn make_call<B: Bus>(bus: &mut B, at: u64, call: Call) -> Option<Result<u64, BusStop>> {
    let at = Linear(at);
    match call {
        Call::Fetch => Some(match bus.fetch(at) {
            Ok(byte) => Ok(u64::from(byte)),
            Err(stop) => Err(stop),
        }),
        Call::Load(size) if is_size(size) => Some(bus.load(at, size)),
        Call::LoadForWrite(size) if is_size(size) => Some(bus.load_for_write(at, size)),
        Call::Store(size, value) if is_size(size) => Some(match bus.store(at, size, value) {
            Ok(()) => Ok(0),
            Err(stop) => Err(stop),
        }),
        Call::Load(_) | Call::LoadForWrite(_) | Call::Store(_, _) => None,
    }
}

/// Whether an access may have so many bytes.
fn is_size(size: u8) -> bool
    ensures { result ≡ (size == 1) || (size == 4) || (size == 8) }
{
    size == 1 || size == 4 || size == 8
}

/// A call through both trees.
fn call_on<P: Phys>(phys: &mut P, at: u64, what: Call) -> Option<Result<u64, BusStop>> {
    if !is_eptp(EPTP) || phys.frames() < 2 {
        return None;
    }
    make_call(&mut NestedBus::new(phys, EPTP, CR3), at, what)
}

/// Calls one after another, and their answers.
#[rattlefmt::skip]
const CALLS: [(&str, u64, Call, Result<u64, BusStop>); 11] = [
    ("a whole word", 0x80_8060_4120, Call::Store(8, 0x8877_6655_4433_2211), Ok(0)),
    ("its third byte", 0x80_8060_4122, Call::Load(1), Ok(0x33)),
    ("four bytes in it", AT, Call::Load(4), Ok(0x7766_5544)),
    ("a byte to run", AT, Call::Fetch, Ok(0x44)),
    ("eight bytes of two words", 0x80_8060_4124, Call::Store(8, 0x0102_0304_0506_0708), Ok(0)),
    ("the first word now", 0x80_8060_4120, Call::LoadForWrite(8), Ok(0x0506_0708_4433_2211)),
    ("the second word now", 0x80_8060_4128, Call::Load(8), Ok(0x0102_0304)),
    ("a store over the end of the page", 0x80_8060_4FFD, Call::Store(4, 7),
        Err(BusStop::Fault(FaultKind::Memory, Linear(0x80_8060_5000)))),
    ("nothing of it is written", 0x80_8060_4FFD, Call::Load(1), Ok(0)),
    ("a whole word where no page is", 0x80_8060_5000, Call::Store(8, 7),
        Err(BusStop::Fault(FaultKind::Memory, Linear(0x80_8060_5000)))),
    ("not canonical", 0x8000_0000_0000, Call::Load(8), Err(BusStop::Fault(FaultKind::Canon, Linear(0x8000_0000_0000)))),
];

#[test]
fn instructions_see_memory_through_both_walks(rt: HostRuntime) {
    let mut memory = some_memory(rt.alloc(), 16).expect(&rt, "memory");
    put_trees(&mut memory);
    for &(shows, at, what, answer) in &CALLS {
        assert_same(&rt, shows, &call_on(&mut memory, at, what), &Some(answer));
    }
}

/// The answer of a call in a memory that misses a frame.
fn call_without(
    memory: &mut Memory,
    missing: u32,
    at: u64,
    what: Call,
) -> Option<Result<u64, BusStop>> {
    let mut sparse = Sparse::without(memory, missing);
    call_on(&mut sparse, at, what)
}

/// Missing frames, calls, and their answers.
#[rattlefmt::skip]
const MISSING: [(&str, u32, u64, Call, Result<u64, BusStop>); 7] = [
    ("the page, a load", 12, AT, Call::Load(8), Err(BusStop::Missing(Frame(12)))),
    ("the page, a fetch", 12, AT, Call::Fetch, Err(BusStop::Missing(Frame(12)))),
    ("the page, a whole word", 12, 0x80_8060_4120, Call::Store(8, 7), Err(BusStop::Missing(Frame(12)))),
    ("the page, eight bytes of two words", 12, 0x80_8060_4124, Call::Store(8, 7), Err(BusStop::Missing(Frame(12)))),
    ("a table of the guest", 9, AT, Call::Store(1, 7), Err(BusStop::Missing(Frame(9)))),
    ("a table of the EPT", 3, AT, Call::Store(4, 7), Err(BusStop::Missing(Frame(3)))),
    ("another frame", 15, 0x80_8060_4120, Call::Store(8, 7), Ok(0)),
];

#[test]
fn a_missing_frame_is_no_fault(rt: HostRuntime) {
    let mut memory = some_memory(rt.alloc(), 16).expect(&rt, "memory");
    put_trees(&mut memory);
    for &(shows, frame, at, what, answer) in &MISSING {
        let found = call_without(&mut memory, frame, at, what);
        assert_same(&rt, shows, &found, &Some(answer));
    }
}
