//! What stops an instruction.

use crate::board::{Board, DATA};
use crate::row::{instruction, regs_of, run};
use crate::same::assert_same;
use sb_bus::{BusStop, FaultKind};
use sb_exec::fetch_insn;
use sb_memory::{Frame, Linear};
use std::test::Fail;

#[rattlefmt::skip]
#[test]
fn a_byte_that_fails_leaves_all_as_before(rt: HostRuntime) {
    let rows = [
        (instruction("LOCK CMPXCHG needs the right to write",
            &[0xF0, 0x48, 0x0F, 0xB1, 0x0C, 0x25, 0, 0, 0x80, 0], [3, 7, 0, 0], 0), false, DATA),
        (instruction("the last byte of a PUSH is not there", &[0x50], [3, 7, DATA + 9, 0], 0), true, DATA + 8),
        (instruction("CALL [500] fails before the push", &[0xFF, 0x14, 0x25, 0, 5, 0, 0], [0, 0, 0, 0], 0), true, 0x500),
    ];
    for (row, writable, at) in &rows {
        let (answer, regs, noted) = run(row, *writable);
        let stopped = answer == Err(BusStop::Fault(FaultKind::Memory, Linear(*at)));
        let left = regs == regs_of(row.before) && noted.is_none();
        assert_same(&rt, row.shows, &(stopped, left), &(true, true));
    }
}

/// Bytes from address 0 on, where an instruction is fetched, and what stops the fetch.
#[rattlefmt::skip]
const STOPS: [(&str, &[u8], u64, BusStop); 4] = [
    ("no byte at all", &[], 0, BusStop::Fault(FaultKind::Memory, Linear(0))),
    ("the immediate is not whole", &[0xB8, 1, 2], 0, BusStop::Fault(FaultKind::Memory, Linear(3))),
    ("INT3", &[0x31, 0xCC, 0xFF], 1, BusStop::Fault(FaultKind::Undefined, Linear(1))),
    ("nothing begins with 0F CC", &[0x90, 0x0F, 0xCC], 1, BusStop::Fault(FaultKind::Undefined, Linear(1))),
];

/// What stops the fetch of an instruction, if anything does.
fn stop_of(text: &[u8], rip: u64) -> Option<BusStop> {
    let mut board = Board {
        text,
        bytes: &[],
        writable: false,
        noted: None,
    };
    fetch_insn(&mut board, rip).err()
}

#[test]
fn bytes_that_are_no_instruction_stop_the_fetch(rt: HostRuntime) {
    for &(shows, code, rip, stop) in &STOPS {
        assert!(rt; stop_of(code, rip) == Some(stop), "{shows}");
    }
}

/// Stops, and what they say.
#[rattlefmt::skip]
const TEXTS: [(BusStop, &str); 2] = [
    (BusStop::Fault(FaultKind::Canon, Linear(0x8000_0000_0000)), "fault canon at 800000000000"),
    (BusStop::Missing(Frame(512)), "no frame 512"),
];

#[test]
fn a_stop_says_what_and_where(rt: HostRuntime) -> Result<(), Fail> {
    for (stop, text) in &TEXTS {
        let told = format!(in rt.alloc(); "{stop}")?;
        assert_same(&rt, "stop", &told.as_str(), text);
    }
    Ok(())
}
