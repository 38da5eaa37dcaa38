//! The text of each kind of line, and of a thread in flight.

use crate::same::assert_same;
use sb_bus::FaultKind;
use sb_insn::{Flags, Regs};
use sb_trace::{
    EndKind, EndState, Event, Line, Lines, ThreadEnd, ThreadEnds, VMFUNC_PHASE, is_landing,
    report_text,
};
use std::alloc::Global;
use std::test::Fail;

/// The report of these lines, with no threads.
fn report(rt: &HostRuntime, event: Event) -> Result<String, Fail> {
    let lines = Lines::new(vec![in rt.alloc(); Line { core: 3, event }]?);
    let end = EndState {
        threads: ThreadEnds::new(Vec::new(rt.alloc())),
        free: 9,
        keys: 0,
    };
    Ok(report_text(rt.alloc(), &lines, &end)?)
}

/// Lines of core 3, their events, and whether they are landings.
#[rattlefmt::skip]
const LINES: [(&str, Event, bool); 19] = [
    ("3 step 40000a", Event::Step { rip: 0x40_000A }, false),
    ("3 extra 1000", Event::Extra { rip: 0x1000 }, false),
    ("3 stray 400001", Event::Stray { rip: 0x40_0001 }, false),
    ("3 print 255", Event::Printed { value: 255 }, false),
    ("3 sys 4 20", Event::Sys { number: 4, answer: 20 }, false),
    ("3 exit 7", Event::Exit { status: 7 }, false),
    ("3 fault canon 800000000000", Event::Fault { kind: FaultKind::Canon, at: 0x8000_0000_0000 }, false),
    ("3 server fault memory 400000", Event::ServerFault { kind: FaultKind::Memory, at: 0x40_0000 }, false),
    ("3 server exit 16", Event::ServerExit { status: 16 }, false),
    ("3 call 15 entered 12", Event::Entered { index: 15, slot: 12 }, false),
    ("3 call 1 wrong key", Event::WrongKey { index: 1 }, false),
    ("3 call 2 pool empty", Event::PoolEmpty { index: 2 }, false),
    ("3 call 4294967295 unbound", Event::Unbound { index: u32::MAX }, false),
    ("3 call 512 bad leaf", Event::BadLeaf { index: 512 }, false),
    ("3 return", Event::Return, false),
    ("3 turn", Event::Turn, false),
    ("3 landing v", Event::Landing { phase: VMFUNC_PHASE }, true),
    ("3 landing 24", Event::Landing { phase: 24 }, true),
    ("3 idle", Event::Idle, false),
];

#[test]
fn each_event_has_its_line(rt: HostRuntime) -> Result<(), Fail> {
    for &(line, event, landing) in &LINES {
        let report = report(&rt, event)?;
        assert_same(&rt, line, &report.as_str().lines().nth(1), &Some(line));
        assert_same(&rt, line, &is_landing(&Line { core: 3, event }), &landing);
    }
    Ok(())
}

/// A thread at home in process 1, in view 2.
fn thread(state: EndKind, flight: Option<u8>) -> ThreadEnd {
    ThreadEnd {
        home: 1,
        view: 2,
        present: 0,
        state,
        regs: Regs {
            general: [0; 16],
            rip: 0x7000_0040,
            flags: Flags::CLEAR,
        },
        flight,
    }
}

/// The report of two such threads, of which the first is in flight.
fn report_of_two(alloc: Global) -> Result<String, Fail> {
    let threads = vec![in alloc;
        thread(EndKind::Running, Some(4)),
        thread(EndKind::Faulted(FaultKind::Switch, 0x10), None),
    ]?;
    let end = EndState {
        threads: ThreadEnds::new(threads),
        free: 0,
        keys: 128,
    };
    Ok(report_text(alloc, &Lines::new(Vec::new(alloc)), &end)?)
}

const REPORT_OF_TWO: &str = "skybridge report 1
thread 0 home 1 view 2 at 0 running
regs 0 rip 70000040 flags 0 0 0 0 0 0 0 0 0 0 0 0 0 0 0 0 0
flight 0 4
thread 1 home 1 view 2 at 0 faulted switch 10
regs 1 rip 70000040 flags 0 0 0 0 0 0 0 0 0 0 0 0 0 0 0 0 0
free 0
keys 128
end
";

#[test]
fn a_thread_in_flight_has_a_further_line(rt: HostRuntime) -> Result<(), Fail> {
    let report = report_of_two(rt.alloc())?;
    assert_same(&rt, "report", &report.as_str(), &REPORT_OF_TWO);
    Ok(())
}
