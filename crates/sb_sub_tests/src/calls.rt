//! Calls at home, each refusal among them. Of what a process takes 15 frames are not its heap's: eleven tables, its pool page, and
//! a page each of text, rewrite area and initial data. A thread takes 12.

use crate::pair::{run, run_through};
use crate::programs::Action::{Call, Store};
use crate::programs::{Row, Scenario};
use sb_insn::registers::{R8, R10};
use std::test::Fail;

/// The start of a text, where an instruction starts.
const TEXT: u64 = 0x40_0000;

/// Three key words.
const KEYS: [u64; 3] = [0x1122_3344_5566_7788, 0x8877_6655_4433_2211, 7];

// ---- exit, print, and numbers of no call

#[rattlefmt::skip]
const OTHERS: [Row; 7] = [
    ("print", 0, 0, Call([1, 0x1122_3344_5566_7788, 0], [0, 0])),
    ("call 5", 0, 0, Call([5, 0, 0], [21, 0])),
    ("call 2^32 + 4", 0, 0, Call([0x1_0000_0004, 0, 0], [21, 0])),
    ("call 2^64 - 1", 0, 0, Call([u64::MAX, 0, 0], [21, 0])),
    ("a heap of no page", 0, 0, Call([4, 0, 0], [18, 0])),
    ("exit", 0, 0, Call([0, 7, 0], [0, 0])),
    ("exit of another thread", 1, 1, Call([0, u64::MAX, 0], [0, 0])),
];

#[test]
fn exits_prints_and_knows_no_other_call(rt: HostRuntime) -> Result<(), Fail> {
    let scenario = Scenario {
        frames: 512 + 2 * 15 + 2 * 12,
        keys: &[],
        processes: 2,
        threads: 2,
        heap_pages: 0,
        rows: &OTHERS,
    };
    let pair = run(rt.alloc(), &rt, &scenario)?;
    assert_eq!(rt; pair.left(), (0, 0));
    Ok(())
}

// ---- register

/// Where 8 frames are free.
#[rattlefmt::skip]
const REGISTERS: [Row; 11] = [
    ("a handler inside an instruction", 0, 0, Call([2, TEXT + 1, 1], [12, 0])),
    ("a handler 4 GiB behind an instruction", 0, 0, Call([2, 0x1_0040_0000, 1], [12, 0])),
    ("no handler and no stack", 0, 0, Call([2, TEXT + 1, 0], [12, 0])),
    ("no stack", 0, 0, Call([2, TEXT, 0], [13, 0])),
    ("17 stacks, with too few frames", 0, 0, Call([2, TEXT, 17], [13, 0])),
    ("2^32 + 1 stacks", 0, 0, Call([2, TEXT, 0x1_0000_0001], [13, 0])),
    ("3 stacks", 0, 0, Call([2, TEXT, 3], [14, 0])),
    ("2 stacks", 0, 0, Call([2, TEXT, 2], [0, 0])),
    ("a server already", 0, 0, Call([2, TEXT, 1], [11, 0])),
    ("a server already, and no handler", 0, 0, Call([2, TEXT + 1, 0], [11, 0])),
    ("exit", 0, 0, Call([0, 0, 0], [0, 0])),
];

#[test]
fn registers_once_with_as_many_stacks_as_fit(rt: HostRuntime) -> Result<(), Fail> {
    let scenario = Scenario {
        frames: 512 + 15 + 12 + 8,
        keys: &[],
        processes: 1,
        threads: 1,
        heap_pages: 0,
        rows: &REGISTERS,
    };
    let pair = run(rt.alloc(), &rt, &scenario)?;
    assert_eq!(rt; pair.left(), (0, 0));
    Ok(())
}

/// So many frames that are free, and what register of 16 stacks answers.
const MOST_STACKS: [(u64, u64); 2] = [(64, 0), (63, 14)];

#[test]
fn sixteen_stacks_take_64_frames(rt: HostRuntime) -> Result<(), Fail> {
    for (free, answer) in MOST_STACKS {
        let scenario = Scenario {
            frames: 512 + 15 + 12 + free,
            keys: &[],
            processes: 1,
            threads: 1,
            heap_pages: 0,
            rows: &[("16 stacks", 0, 0, Call([2, TEXT, 16], [answer, 0]))],
        };
        run(rt.alloc(), &rt, &scenario)?;
    }
    Ok(())
}

// ---- bind

/// Where 24 frames are free, and three key words: process 1 becomes a server with one stack.
#[rattlefmt::skip]
const BINDS: [Row; 13] = [
    ("a process that is no server yet", 0, 0, Call([3, 1, 0], [15, 0])),
    ("it becomes one", 1, 1, Call([2, TEXT, 1], [0, 0])),
    ("a server to itself", 1, 1, Call([3, 1, 0], [15, 0])),
    ("a client to itself", 0, 0, Call([3, 0, 0], [15, 0])),
    ("a process that is no server", 0, 0, Call([3, 2, 0], [15, 0])),
    ("no process", 0, 0, Call([3, 3, 0], [15, 0])),
    ("process 2^32 + 1", 0, 0, Call([3, 0x1_0000_0001, 0], [15, 0])),
    ("a binding", 0, 0, Call([3, 1, 0], [0, 1])),
    ("frames for exactly one more", 0, 0, Call([3, 1, 0], [0, 2])),
    ("no frames, and a key", 0, 0, Call([3, 1, 0], [14, 0])),
    ("no server, and no frames", 0, 0, Call([3, 2, 0], [15, 0])),
    ("no frames for a stack", 0, 0, Call([2, TEXT, 1], [14, 0])),
    ("exit of the server's thread", 1, 1, Call([0, 0, 0], [0, 0])),
];

#[test]
fn binds_to_servers_while_frames_are_free(rt: HostRuntime) -> Result<(), Fail> {
    let scenario = Scenario {
        frames: 512 + 3 * 15 + 2 * 12 + 24,
        keys: &KEYS,
        processes: 3,
        threads: 2,
        heap_pages: 0,
        rows: &BINDS,
    };
    let pair = run(rt.alloc(), &rt, &scenario)?;
    // The key and the buffer of the second binding, which no refused call changes.
    let regs = pair.regs(0);
    assert_eq!(rt;
        (regs.general[R8], regs.general[R10]),
        (0x8877_6655_4433_2211, 0x200_8000)
    );
    assert_eq!(rt; pair.left(), (0, 1));
    Ok(())
}

/// Where 13 or 14 frames are free: those of a stack, and 9 or 10.
#[rattlefmt::skip]
const LAST_BINDS: [(u64, [Row; 2]); 2] = [
    (13, [
        ("a server", 1, 1, Call([2, TEXT, 1], [0, 0])),
        ("9 frames", 0, 0, Call([3, 1, 0], [14, 0])),
    ]),
    (14, [
        ("a server", 1, 1, Call([2, TEXT, 1], [0, 0])),
        ("10 frames", 0, 0, Call([3, 1, 0], [0, 1])),
    ]),
];

#[test]
fn a_binding_takes_ten_frames(rt: HostRuntime) -> Result<(), Fail> {
    for (free, rows) in &LAST_BINDS {
        let scenario = Scenario {
            frames: 512 + 2 * 15 + 2 * 12 + free,
            keys: &KEYS,
            processes: 2,
            threads: 2,
            heap_pages: 0,
            rows,
        };
        run(rt.alloc(), &rt, &scenario)?;
    }
    Ok(())
}

/// Where one key word is there, and 14 frames are free.
#[rattlefmt::skip]
const LAST_KEY: [Row; 4] = [
    ("a server", 1, 1, Call([2, TEXT, 1], [0, 0])),
    ("the last key", 0, 0, Call([3, 1, 0], [0, 1])),
    ("no key, and no frames", 0, 0, Call([3, 1, 0], [17, 0])),
    ("no server, and no key", 0, 0, Call([3, 0, 0], [15, 0])),
];

#[test]
fn each_binding_draws_a_key(rt: HostRuntime) -> Result<(), Fail> {
    let scenario = Scenario {
        frames: 512 + 2 * 15 + 2 * 12 + 14,
        keys: &[9],
        processes: 2,
        threads: 2,
        heap_pages: 0,
        rows: &LAST_KEY,
    };
    let pair = run(rt.alloc(), &rt, &scenario)?;
    assert_eq!(rt; pair.left(), (0, 0));
    Ok(())
}

/// Two servers that bind to each other.
#[rattlefmt::skip]
const EACH_OTHER: [Row; 5] = [
    ("the first server", 0, 0, Call([2, TEXT, 1], [0, 0])),
    ("the second server", 1, 1, Call([2, TEXT, 2], [0, 0])),
    ("the first to the second", 0, 0, Call([3, 1, 0], [0, 1])),
    ("the second to the first", 1, 1, Call([3, 0, 0], [0, 1])),
    ("and once more", 1, 1, Call([3, 0, 0], [0, 2])),
];

#[test]
fn servers_bind_to_each_other(rt: HostRuntime) -> Result<(), Fail> {
    let scenario = Scenario {
        frames: 512 + 2 * 16 + 2 * 12 + 45,
        keys: &KEYS,
        processes: 2,
        threads: 2,
        heap_pages: 1,
        rows: &EACH_OTHER,
    };
    let pair = run(rt.alloc(), &rt, &scenario)?;
    assert_eq!(rt; pair.left(), (3, 0));
    assert_eq!(rt; pair.regs(1).general[R10], 0x204_8000);
    Ok(())
}

/// A full list: the row of each binding with the index that it gets, and one more.
#[rattlefmt::skip]
const FULL_LIST: [Row; 17] = [
    ("a server", 1, 1, Call([2, TEXT, 1], [0, 0])),
    ("binding 1", 0, 0, Call([3, 1, 0], [0, 1])),
    ("binding 2", 0, 0, Call([3, 1, 0], [0, 2])),
    ("binding 3", 0, 0, Call([3, 1, 0], [0, 3])),
    ("binding 4", 0, 0, Call([3, 1, 0], [0, 4])),
    ("binding 5", 0, 0, Call([3, 1, 0], [0, 5])),
    ("binding 6", 0, 0, Call([3, 1, 0], [0, 6])),
    ("binding 7", 0, 0, Call([3, 1, 0], [0, 7])),
    ("binding 8", 0, 0, Call([3, 1, 0], [0, 8])),
    ("binding 9", 0, 0, Call([3, 1, 0], [0, 9])),
    ("binding 10", 0, 0, Call([3, 1, 0], [0, 10])),
    ("binding 11", 0, 0, Call([3, 1, 0], [0, 11])),
    ("binding 12", 0, 0, Call([3, 1, 0], [0, 12])),
    ("binding 13", 0, 0, Call([3, 1, 0], [0, 13])),
    ("binding 14", 0, 0, Call([3, 1, 0], [0, 14])),
    ("binding 15", 0, 0, Call([3, 1, 0], [0, 15])),
    ("a full list, no key, and no frames", 0, 0, Call([3, 1, 0], [16, 0])),
];

#[test]
fn a_list_has_sixteen_views(rt: HostRuntime) -> Result<(), Fail> {
    let scenario = Scenario {
        frames: 512 + 2 * 15 + 2 * 12 + 154,
        keys: &[5; 15],
        processes: 2,
        threads: 2,
        heap_pages: 0,
        rows: &FULL_LIST,
    };
    let pair = run_through(rt.alloc(), &rt, &scenario)?;
    assert_eq!(rt; pair.left(), (0, 0));
    Ok(())
}

// ---- protect

/// Modes of three heap pages without the bytes of VMFUNC.
#[rattlefmt::skip]
const MODES: [Row; 11] = [
    ("a page behind the heap", 0, 0, Call([4, 3, 0], [18, 0])),
    ("page 2^32", 0, 0, Call([4, 0x1_0000_0000, 0], [18, 0])),
    ("no page and no mode", 0, 0, Call([4, 3, 2], [18, 0])),
    ("mode 2", 0, 0, Call([4, 0, 2], [19, 0])),
    ("mode 2^32 + 1", 0, 0, Call([4, 0, 0x1_0000_0001], [19, 0])),
    ("a page is executed", 0, 0, Call([4, 0, 1], [0, 0])),
    ("and again", 0, 0, Call([4, 0, 1], [0, 0])),
    ("the last page is executed", 0, 0, Call([4, 2, 1], [0, 0])),
    ("a page is written", 0, 0, Call([4, 0, 0], [0, 0])),
    ("and again", 0, 0, Call([4, 0, 0], [0, 0])),
    ("the last page is written", 0, 0, Call([4, 2, 0], [0, 0])),
];

/// A machine of a process with three heap pages, and its thread.
const fn heap_of_three(rows: &[Row]) -> Scenario<'_> {
    Scenario {
        frames: 512 + 18 + 12,
        keys: &[],
        processes: 1,
        threads: 1,
        heap_pages: 3,
        rows,
    }
}

#[test]
fn heap_pages_are_written_or_executed(rt: HostRuntime) -> Result<(), Fail> {
    run(rt.alloc(), &rt, &heap_of_three(&MODES))?;
    Ok(())
}

/// The bytes of VMFUNC across both borders of the second page, and inside of the second and the third.
#[rattlefmt::skip]
const PATTERNS: [Row; 26] = [
    ("0F 01 at the end of the first page", 0, 0, Store(0xC0_0FFE, 0x10F)),
    ("D4 at the start of the second", 0, 0, Store(0xC0_1000, 0xD4)),
    ("the first page alone", 0, 0, Call([4, 0, 1], [0, 0])),
    ("the second behind it", 0, 0, Call([4, 1, 1], [20, 0xC0_0FFE])),
    ("the second, written", 0, 0, Call([4, 1, 0], [0, 0])),
    ("the first, written", 0, 0, Call([4, 0, 0], [0, 0])),
    ("the second alone", 0, 0, Call([4, 1, 1], [0, 0])),
    ("the first before it", 0, 0, Call([4, 0, 1], [20, 0xC0_0FFE])),
    ("the second, written", 0, 0, Call([4, 1, 0], [0, 0])),
    ("0F at the end of the second", 0, 0, Store(0xC0_1FFF, 0x10F)),
    ("01 D4 at the start of the third", 0, 0, Store(0xC0_2001, 0xD4)),
    ("the third alone", 0, 0, Call([4, 2, 1], [0, 0])),
    ("the second before it", 0, 0, Call([4, 1, 1], [20, 0xC0_1FFF])),
    ("the third, written", 0, 0, Call([4, 2, 0], [0, 0])),
    ("the pattern in the third", 0, 0, Store(0xC0_2010, 0x10F)),
    ("and its last byte", 0, 0, Store(0xC0_2012, 0xD4)),
    ("the third", 0, 0, Call([4, 2, 1], [20, 0xC0_2010])),
    ("the pattern in the second", 0, 0, Store(0xC0_1100, 0x10F)),
    ("and its last byte", 0, 0, Store(0xC0_1102, 0xD4)),
    ("the first alone", 0, 0, Call([4, 0, 1], [0, 0])),
    ("the lowest of two in the second", 0, 0, Call([4, 1, 1], [20, 0xC0_0FFE])),
    ("the first, written", 0, 0, Call([4, 0, 0], [0, 0])),
    ("the other one", 0, 0, Call([4, 1, 1], [20, 0xC0_1100])),
    ("a page behind the heap", 0, 0, Call([4, 3, 1], [18, 0])),
    ("the third again", 0, 0, Call([4, 2, 1], [20, 0xC0_2010])),
    ("exit, by which RDX stays", 0, 0, Call([0, 3, 0], [0, 0xC0_2010])),
];

#[test]
fn no_page_with_the_pattern_is_executed(rt: HostRuntime) -> Result<(), Fail> {
    run(rt.alloc(), &rt, &heap_of_three(&PATTERNS))?;
    Ok(())
}
