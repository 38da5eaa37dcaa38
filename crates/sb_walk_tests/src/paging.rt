//! Walks through a set of tables in memory, and through a few words that note what is read.

ghost use Rattle.std.specs.Prelude.{◌≤◌};

use crate::same::assert_same;
use crate::sparse::some_memory;
use sb_memory::{Access, EptStop, Frame, GuestPhys, Linear, Memory, Phys};
use sb_pagewalk::{Direct, TableSet, TableStop, Tables, WalkStop, walk};

const FRAMES: [Frame; 11] = [
    Frame(600),
    Frame(601),
    Frame(602),
    Frame(603),
    Frame(604),
    Frame(605),
    Frame(606),
    Frame(607),
    Frame(608),
    Frame(609),
    Frame(610),
];

/// Builds a set in frames 16 and 600 to 610, if the memory has them, and sets the page at 400000 in it.
#[tactic(auto, unfolding(sb_pagewalk::specs::Windows::page_table_of))]
fn build_with_one_page(memory: &mut Memory) -> Option<TableSet> {
    if memory.frames() < 611 {
        return None;
    }
    let set = TableSet::build(memory, Frame(16), FRAMES);
    set.set_page(memory, Linear(0x400000), 0x258005);
    Some(set)
}

/// The answer of a walk from a root.
fn walk_from(
    memory: &mut Memory,
    root: u64,
    at: u64,
    access: Access,
) -> Result<GuestPhys, WalkStop> {
    walk(&mut Direct::new(memory), root, Linear(at), access)
}

/// Addresses, and the answers of their walks.
#[rattlefmt::skip]
const ADDRESSES: [(&str, u64, Access, Result<GuestPhys, WalkStop>); 9] = [
    ("fetch in the page", 0x400123, Access::Fetch, Ok(GuestPhys(0x258123))),
    ("read in the page", 0x400FFF, Access::Read, Ok(GuestPhys(0x258FFF))),
    ("write to a page without the right", 0x400123, Access::Write, Err(WalkStop::Denied { level: 1 })),
    ("the next page", 0x401000, Access::Read, Err(WalkStop::NotPresent { level: 1 })),
    ("no window", 0x600000, Access::Read, Err(WalkStop::NotPresent { level: 2 })),
    ("past the second GiB", 0x80000000, Access::Read, Err(WalkStop::NotPresent { level: 3 })),
    ("past the first PML4 entry", 0x8000000000, Access::Read, Err(WalkStop::NotPresent { level: 4 })),
    ("the upper half", 0xFFFF_FFFF_FFFF_F000, Access::Read, Err(WalkStop::NotPresent { level: 4 })),
    ("not canonical", 0x800000000000, Access::Read, Err(WalkStop::NonCanonical)),
];

#[test]
fn walks_through_a_set_with_one_page(rt: HostRuntime) {
    let mut memory = some_memory(rt.alloc(), 611).expect(&rt, "memory");
    assert_same(
        &rt,
        "built",
        &build_with_one_page(&mut memory).is_some(),
        &true,
    );
    for &(shows, at, access, answer) in &ADDRESSES {
        let found = walk_from(&mut memory, 0x10000, at, access);
        assert_same(&rt, shows, &found, &answer);
    }
    let outside = Err(WalkStop::Table(TableStop::Ept(EptStop::Outside { level: 1 })));
    let found = walk_from(&mut memory, 0x263000, 0x400123, Access::Read);
    assert_same(&rt, "a root past the memory", &found, &outside);
}

/// Words from place 0 on, which note the places of the first reads.
#[derive(Drop)]
struct Words<'a> {
    words: &'a [u64],
    places: [u64; 8],
    count: usize,
    ghost within: { count ≤ 8 },
}

impl Tables for Words<'_> {
    ghost use Rattle.std.specs.Prelude.{ℕ, List, take};
    ghost use Rattle.sb_walk_tests.specs.TestTables.{noted, word_of};

    ghost Meaning = { List ℕ };

    ghost Account = { List ℕ };

    ghost Kept = { Unit {0} };

    ghost meaning = { λ tables. tables.words.now };

    ghost entries = { word_of };

    ghost account = { λ tables. take tables.count tables.places };

    ghost rule = { noted };

    ghost kept = { λ tables. tt };

    #[tactic(auto, unfolding(crate::specs::TestTables::word_of, crate::specs::TestTables::noted))]
    fn entry(&mut self, at: GuestPhys) -> Result<u64, TableStop> {
        if self.count < 8 {
            self.places[self.count] = at.0;
            self.count += 1;
        }
        match self.words.get((at.0 / 8) as usize) {
            Some(word) => Ok(*word),
            None => Err(TableStop::Ept(EptStop::TooWide)),
        }
    }
}

/// The answer of a walk of the address 123 through tables in frames 0 to 3 with these first entries, from level 4 down, and
/// how many entries it read.
fn walk_first(entries: [u64; 4], access: Access) -> (Result<GuestPhys, WalkStop>, usize) {
    let mut words = [0; 1537];
    let [fourth, third, second, first] = entries;
    words[0] = fourth;
    words[512] = third;
    words[1024] = second;
    words[1536] = first;
    let mut tables = Words {
        words: &words,
        places: [0; 8],
        count: 0,
    };
    let answer = walk(&mut tables, 0, Linear(0x123), access);
    (answer, tables.count)
}

/// The byte of the address 123 in the last page.
const PAGE: Result<GuestPhys, WalkStop> = Ok(GuestPhys(0x5123));

/// Entries from level 4 down, an access, the answer of its walk, and how many entries it reads.
#[rattlefmt::skip]
const ENTRIES: [(&str, [u64; 4], Access, Result<GuestPhys, WalkStop>, usize); 12] = [
    ("all rights", [0x1007, 0x2007, 0x3007, 0x5007], Access::Write, PAGE, 4),
    ("bits 62 to 52 are no address", [0x1007, 0x2007, 0x3007, 0x7FF0_0000_0000_5007], Access::Fetch, PAGE, 4),
    ("bit 7 at levels 4 and 1", [0x1087, 0x2007, 0x3007, 0x5087], Access::Read, PAGE, 4),
    ("bit 7 at level 3", [0x1007, 0x2087, 0x3007, 0x5007], Access::Read, Err(WalkStop::Large { level: 3 }), 2),
    ("bit 7 at level 2", [0x1007, 0x2007, 0x3087, 0x5007], Access::Read, Err(WalkStop::Large { level: 2 }), 3),
    ("not present before large", [0x1007, 0x2086, 0x3007, 0x5007], Access::Read, Err(WalkStop::NotPresent { level: 3 }), 2),
    ("large before denied", [0x1007, 0x2081, 0x3007, 0x5007], Access::Read, Err(WalkStop::Large { level: 3 }), 2),
    ("not writable at level 4", [0x1005, 0x2007, 0x3007, 0x5007], Access::Write, Err(WalkStop::Denied { level: 4 }), 1),
    ("not user at level 2", [0x1007, 0x2007, 0x3003, 0x5007], Access::Read, Err(WalkStop::Denied { level: 2 }), 3),
    ("bit 63 at level 3", [0x1007, 0x8000_0000_0000_2007, 0x3007, 0x5007], Access::Fetch, Err(WalkStop::Denied { level: 3 }), 2),
    ("bit 63 forbids no read", [0x1007, 0x8000_0000_0000_2007, 0x3007, 0x5007], Access::Read, PAGE, 4),
    ("no table there", [0x1007, 0x2007, 0x4007, 0x5007], Access::Read, Err(WalkStop::Table(TableStop::Ept(EptStop::TooWide))), 4),
];

#[test]
fn the_first_refusal_is_the_answer(rt: HostRuntime) {
    for &(shows, entries, access, answer, reads) in &ENTRIES {
        assert_same(&rt, shows, &walk_first(entries, access), &(answer, reads));
    }
}
