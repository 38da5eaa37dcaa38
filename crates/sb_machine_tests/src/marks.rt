//! Rows of marks: the lines of a text in which instructions were replaced, on both machines (docs/MARKS.md).

use crate::pair::Pair;
use crate::same::assert_same;
use crate::turns::start;
use sb_bus::FaultKind;
use sb_trace::Event;
use std::process::Abort;
use std::test::Fail;

/// What a row shows, a text, and the events of its thread.
type Row = (&'static str, &'static [u8], &'static [Event]);

#[rattlefmt::skip]
const ROWS: [Row; 4] = [
    ("a jump into an instruction", &[0xB8, 6, 0, 0x40, 0, 0xFF, 0xE0],
        &[Event::Step { rip: 0x40_0000 }, Event::Stray { rip: 0x40_0005 },
            Event::Fault { kind: FaultKind::Undefined, at: 0x40_0006 }, Event::Idle]),
    ("an instruction that was moved, and a jump into its bytes",
        &[0xB8, 0x0F, 1, 0xD4, 0, 0xB9, 1, 0, 0x40, 0, 0xFF, 0xE1],
        &[Event::Extra { rip: 0x40_0000 }, Event::Extra { rip: 0x1000 }, Event::Extra { rip: 0x1008 },
            Event::Extra { rip: 0x100F }, Event::Step { rip: 0x1016 }, Event::Extra { rip: 0x1018 },
            Event::Extra { rip: 0x1020 }, Event::Step { rip: 0x40_0005 }, Event::Stray { rip: 0x40_000A },
            Event::Fault { kind: FaultKind::Undefined, at: 0x40_0001 }]),
    ("VMFUNC in place", &[0x0F, 1, 0xD4, 0x31, 0xC0, 0x0F, 5],
        &[Event::Step { rip: 0x40_0000 }, Event::Extra { rip: 0x40_0001 }, Event::Extra { rip: 0x40_0002 },
            Event::Step { rip: 0x40_0003 }, Event::Exit { status: 0 }]),
    ("a load from the scratch page", &[0x8B, 4, 0x25, 0, 0x40, 0, 0x70, 0x31, 0xC0, 0x0F, 5],
        &[Event::Stray { rip: 0x40_0000 }, Event::Step { rip: 0x40_0007 }, Event::Exit { status: 0 }]),
];

/// Stops the test where a step of core 0 does not have this event on both machines.
fn assert_event(rt: &impl Abort, name: &str, pair: &mut Pair, event: Event) -> Result<(), Fail> {
    let (found, plain) = pair.step(0).ok_or("there is a core")?;
    assert_same(rt, name, &found.event, &event);
    assert_same(rt, name, &plain.event, &event);
    Ok(())
}

#[test]
fn lines_have_marks(rt: HostRuntime) -> Result<(), Fail> {
    for (name, text, events) in ROWS {
        let mut pair = start(rt.alloc(), &[text])?;
        for event in events {
            assert_event(&rt, name, &mut pair, *event)?;
        }
    }
    Ok(())
}
