//! Rows of turns on both machines.

use crate::bundles::{
    ADDS, ADDS_MOVED, ADDS_ON_ONE, BINDS_TWICE, CALLS, FAULTS, FORWARDS, GUESSES, LANDS, UNBOUND,
    bundle_of,
};
use crate::pair::Pair;
use crate::same::assert_same;
use sb_bundle::read_bundle;
use sb_bus::FaultKind;
use sb_load::load;
use sb_trace::Event;
use std::alloc::Global;
use std::process::Abort;
use std::test::Fail;

/// What a row shows, the texts of its processes, its turns, each a core and a number of steps, and a line that must come.
type Row = (
    &'static str,
    &'static [&'static [u8]],
    &'static [(u8, u32)],
    Event,
);

#[rattlefmt::skip]
const ROWS: [Row; 8] = [
    ("a call", &[&ADDS, &CALLS], &[(0, 7), (1, 72)], Event::Entered { index: 1, slot: 0 }),
    ("no free stack", &[&ADDS_ON_ONE, &CALLS, &CALLS], &[(0, 7), (1, 41), (2, 35), (1, 13), (2, 38)],
        Event::PoolEmpty { index: 1 }),
    ("a wrong key", &[&ADDS, &GUESSES], &[(0, 7), (1, 28)], Event::WrongKey { index: 1 }),
    ("no binding", &[&UNBOUND], &[(0, 14)], Event::Unbound { index: 1 }),
    ("a landing without a flight", &[&LANDS, &CALLS], &[(0, 7), (1, 70)], Event::Step { rip: 0x7000_004D }),
    ("a call in a call", &[&FORWARDS, &BINDS_TWICE], &[(0, 7), (1, 46)], Event::WrongKey { index: 2 }),
    ("a fault in a server", &[&FAULTS, &CALLS], &[(0, 7), (1, 41)],
        Event::ServerFault { kind: FaultKind::Memory, at: 0x40_0000 }),
    ("an instruction of a server that was moved", &[&ADDS_MOVED, &CALLS], &[(0, 7), (1, 72)],
        Event::Extra { rip: 0x40_0017 }),
];

/// Both machines at the start of a bundle of these texts.
pub fn start(alloc: Global, texts: &[&[u8]]) -> Result<Pair, Fail> {
    let bundle = read_bundle(alloc, &bundle_of(alloc, texts)?)
        .ok()
        .ok_or("the bytes are a bundle")?;
    let loaded = load(alloc, &bundle).ok().ok_or("the bundle may be loaded")?;
    Ok(Pair::new(alloc, &loaded)?)
}

/// A turn of a core on both, with the same lines. Whether one of them says this.
fn turn(
    rt: &impl Abort,
    name: &str,
    pair: &mut Pair,
    core: u8,
    steps: u32,
    event: Event,
) -> Result<bool, Fail> {
    let mut came = false;
    for _ in 0..steps {
        let (found, expected) = pair.step(core).ok_or("there is such a core")?;
        assert_same(rt, name, &found, &expected);
        came = came || found.event == event;
    }
    Ok(came)
}

/// Stops the test where not the same is left of both.
fn assert_same_ends(alloc: Global, rt: &impl Abort, name: &str, pair: &Pair) -> Result<(), Fail> {
    let (found, expected) = pair.ends(alloc)?;
    let left = (expected.free, expected.keys);
    assert_same(rt, name, &(found.free, found.keys), &left);
    let threads = expected.threads.items();
    assert_same(rt, name, &found.threads.items(), &threads);
    Ok(())
}

/// Runs both beside each other through the turns of a row.
fn run_beside(alloc: Global, rt: &impl Abort, row: &Row) -> Result<(), Fail> {
    let &(name, texts, turns, event) = row;
    let mut pair = start(alloc, texts)?;
    let mut came = false;
    for &(core, steps) in turns {
        let now = turn(rt, name, &mut pair, core, steps, event)?;
        came = came || now;
    }
    assert_same(rt, name, &came, &true);
    assert_same_ends(alloc, rt, name, &pair)
}

#[test]
fn both_machines_say_the_same(rt: HostRuntime) -> Result<(), Fail> {
    for row in &ROWS {
        run_beside(rt.alloc(), &rt, row)?;
    }
    Ok(())
}
