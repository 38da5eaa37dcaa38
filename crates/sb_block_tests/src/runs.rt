//! Whole runs, made by blocks and by the machine.

use crate::board::{Board, fresh_block};
use crate::bundle::{CLIENT, SERVER};
use crate::same::assert_same;
use sb_block::{Block, MadeStep, Place, Seen};
use sb_bus::FaultKind;
use sb_trace::Event;
use std::alloc::Global;
use std::process::Abort;
use std::test::Fail;

/// The most steps of a block.
const LIMIT: u32 = 8;

/// The lines of the server at which the kernels have a part: register and exit.
#[rattlefmt::skip]
const SERVER_LINES: [Event; 2] = [Event::Sys { number: 2, answer: 0 }, Event::Exit { status: 0 }];

/// Those of the client: bind, print of the reply, and the read at 0.
#[rattlefmt::skip]
const CLIENT_LINES: [Event; 3] = [
    Event::Sys { number: 3, answer: 0 },
    Event::Printed { value: 7 },
    Event::Fault { kind: FaultKind::Memory, at: 0 },
];

/// Stops the test where a place does not hold the value that was seen.
fn assert_holds(rt: &impl Abort, board: &Board, name: &str, seen: &Seen) {
    match seen.place {
        Place::Word(at) => assert_same(rt, name, &board.word(at), &Some(seen.value)),
        Place::Core(core) => {
            let made = board.core_state(core).map(|state| state.made);
            assert_same(rt, name, &made, &Some(seen.value));
        }
    }
}

/// A step of the machine: the line that the block's step has with its mark, from the view of its fact to where RIP is behind it.
fn assert_step(rt: &impl Abort, board: &mut Board, core: u8, step: &MadeStep) {
    let view = board.core_state(core).map(|state| state.view);
    assert_same(rt, "view", &view, &Some(step.fact.view));
    let marked = board.marked(core, step);
    assert_same(rt, "line", &board.step(core), &marked);
    let next = board.core_state(core).map(|state| state.regs.rip);
    assert_same(rt, "next", &next, &Some(step.fact.next));
}

/// As many steps of the machine as a block has: the same lines, the same core, and the words that it wrote. Before them the
/// places that it read hold the values that it saw.
pub fn assert_block(rt: &impl Abort, board: &mut Board, core: u8, block: &Block) {
    assert_same(rt, "before", &board.core_state(core), &Some(block.before));
    for seen in block.reads.items() {
        assert_holds(rt, board, "read", seen);
    }
    for step in block.steps.items() {
        assert_step(rt, board, core, step);
    }
    assert_same(rt, "after", &board.core_state(core), &Some(block.after));
    for seen in block.writes.items() {
        assert_holds(rt, board, "written", seen);
    }
}

/// What a run of a core says: the lines of its blocks, and those of the kernels.
#[derive(Drop)]
struct Said {
    own: Vec<Event>,
    kernels: Vec<Event>,
}

/// A core up to its end: blocks where it goes on by itself, and steps of the machine where the kernels have a part.
fn run(alloc: Global, rt: &impl Abort, board: &mut Board, core: u8) -> Result<Said, Fail> {
    let mut own = Vec::new(alloc);
    let mut kernels = Vec::new(alloc);
    for _ in 0..64 {
        if let Some(block) = fresh_block(alloc, board, core, LIMIT)? {
            assert_block(rt, board, core, &block);
            for step in block.steps.items() {
                own.push(step.event)?;
            }
        } else {
            let event = board.step(core).ok_or("there is such a core")?;
            kernels.push(event)?;
            if matches!(event, Event::Exit { .. } | Event::Fault { .. }) {
                break;
            }
        }
    }
    Ok(Said { own, kernels })
}

/// How many of these lines are of a landing, how many enter a server, and how many return.
fn count(events: &[Event]) -> (usize, usize, usize) {
    let landing = events
        .iter()
        .filter(|event| matches!(event, Event::Landing { .. }))
        .count();
    let entered = events
        .iter()
        .filter(|event| **event == (Event::Entered { index: 1, slot: 0 }))
        .count();
    let returns = events
        .iter()
        .filter(|event| **event == Event::Return)
        .count();
    (landing, entered, returns)
}

#[test]
fn blocks_are_steps_of_the_machine(rt: HostRuntime) -> Result<(), Fail> {
    let alloc = rt.alloc();
    let mut board = Board::new(alloc)?;
    let server = run(alloc, &rt, &mut board, SERVER)?;
    let lines = SERVER_LINES.as_slice();
    assert_same(&rt, "server", &server.kernels.as_slice(), &lines);
    assert_same(&rt, "server", &server.own.len(), &5);
    let client = run(alloc, &rt, &mut board, CLIENT)?;
    let lines = CLIENT_LINES.as_slice();
    assert_same(&rt, "client", &client.kernels.as_slice(), &lines);
    // The VMFUNC, phases 0 to 7 and, behind the exchange that enters, 9 to 16.
    assert_same(&rt, "client", &count(&client.own), &(17, 1, 1));
    Ok(())
}
