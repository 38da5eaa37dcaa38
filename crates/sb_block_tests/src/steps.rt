//! Single steps: the frames that they ask for, the words that they read, and those that they write.

use crate::board::{Board, ask, fresh_block, step_to};
use crate::bundle::{CLIENT, SERVER};
use crate::same::assert_same;
use sb_abi::{COMPARE_KEY, RETURN_ADDRESS, VMFUNC_ADDRESS, VMFUNC_PHASE};
use sb_block::{Block, Place, Seen, Stop};
use sb_memory::{Frame, PAGE_SIZE};
use sb_trace::Event;
use std::alloc::Global;
use std::process::Abort;
use std::test::Fail;

/// Steps a core to its end.
fn finish(board: &mut Board, core: u8) {
    for _ in 0..200 {
        board.step(core);
    }
}

/// A machine whose server has registered, with the client at an address.
fn client_at(alloc: Global, rip: u64) -> Result<Board, Fail> {
    let mut board = Board::new(alloc)?;
    finish(&mut board, SERVER);
    step_to(&mut board, CLIENT, rip)?;
    Ok(board)
}

/// The block of one step.
fn one_step(alloc: Global, board: &mut Board, core: u8) -> Result<Block, Fail> {
    Ok(fresh_block(alloc, board, core, 1)?.ok_or("the core makes the step by itself")?)
}

// ---- the frames that a step needs

/// The frame that a step asks for.
fn asked_for(alloc: Global, board: &mut Board, core: u8) -> Option<u32> {
    match board.block(alloc, core, 1) {
        Some(Err(Stop::NeedFrame(frame))) => Some(frame.0),
        _ => None,
    }
}

/// The frames that the next step of a core needs. Where any of them is left out, that one is asked for.
fn frames_needed(
    alloc: Global,
    rt: &impl Abort,
    board: &mut Board,
    core: u8,
) -> Result<Vec<u32>, Fail> {
    let mut needed = Vec::new(alloc);
    board.drop_all();
    let _ = ask(alloc, board, core, 1, &mut needed)?;
    for left_out in &needed {
        board.drop_all();
        for frame in &needed {
            if frame != left_out {
                board.give(alloc, Frame(*frame))?;
            }
        }
        assert_same(
            rt,
            "left out",
            &asked_for(alloc, board, core),
            &Some(*left_out),
        );
    }
    Ok(needed)
}

#[test]
fn the_root_of_the_walk_is_asked_for_first(rt: HostRuntime) -> Result<(), Fail> {
    let alloc = rt.alloc();
    let mut board = Board::new(alloc)?;
    let state = board.core_state(SERVER).ok_or("there is such a core")?;
    let first = asked_for(alloc, &mut board, SERVER).map(u64::from);
    assert_same(&rt, "root", &first, &Some(state.eptp / PAGE_SIZE));
    Ok(())
}

#[test]
fn the_frame_at_rip_is_asked_for_last(rt: HostRuntime) -> Result<(), Fail> {
    let alloc = rt.alloc();
    let mut board = Board::new(alloc)?;
    let needed = frames_needed(alloc, &rt, &mut board, SERVER)?;
    let last = needed.last().ok_or("a frame is needed")?;
    // The first eight bytes of the server's text.
    let word = board.word(PAGE_SIZE * u64::from(*last));
    assert_same(&rt, "text", &word, &Some(0x0001_BE00_4000_17BF));
    Ok(())
}

#[test]
fn vmfunc_needs_the_frame_of_the_list(rt: HostRuntime) -> Result<(), Fail> {
    let alloc = rt.alloc();
    let mut board = client_at(alloc, VMFUNC_ADDRESS)?;
    let state = board.core_state(CLIENT).ok_or("there is such a core")?;
    let needed = frames_needed(alloc, &rt, &mut board, CLIENT)?;
    assert_same(&rt, "list", &needed.contains(&state.list.0), &true);
    let block = one_step(alloc, &mut board, CLIENT)?;
    let line = block.steps.items().first().map(|step| step.event);
    let departed = Event::Landing {
        phase: VMFUNC_PHASE,
    };
    assert_same(&rt, "line", &line, &Some(departed));
    let after = (block.after.view, block.after.phase, block.after.made);
    assert_same(
        &rt,
        "after",
        &after,
        &(1, Some(COMPARE_KEY), state.made.wrapping_add(1)),
    );
    Ok(())
}

#[test]
fn a_landing_needs_frames_of_both_spaces(rt: HostRuntime) -> Result<(), Fail> {
    let alloc = rt.alloc();
    let mut board = client_at(alloc, RETURN_ADDRESS)?;
    frames_needed(alloc, &rt, &mut board, CLIENT)?;
    let block = one_step(alloc, &mut board, CLIENT)?;
    let line = block.steps.items().first().map(|step| step.event);
    assert_same(
        &rt,
        "line",
        &line,
        &Some(Event::Landing { phase: COMPARE_KEY }),
    );
    Ok(())
}

// ---- the words that a step reads and writes

/// Whether a block reads a place, and what it saw there.
fn seen_at(block: &Block, place: Place) -> Option<u64> {
    let seen = block.reads.items().iter().find(|seen| seen.place == place);
    seen.map(|seen| seen.value)
}

/// Of each word that a block writes, the offset in its frame, the value, and what was seen there if it was read.
fn writes_of(alloc: Global, block: &Block) -> Result<Vec<(u64, u64, Option<u64>)>, Fail> {
    let mut writes = Vec::new(alloc);
    for seen in block.writes.items() {
        if let Place::Word(at) = seen.place {
            writes.push((at % PAGE_SIZE, seen.value, seen_at(block, seen.place)))?;
        }
    }
    Ok(writes)
}

/// What a step shows, where the client makes it, and what it writes.
type Store = (&'static str, u64, &'static [(u64, u64, Option<u64>)]);

/// A word of which a part is written is read before. A whole word is not.
const STORES: [Store; 3] = [
    (
        "across two frames",
        0x40_000C,
        &[
            (0xFF8, 0x3344_0000_0000_0000, Some(0)),
            (0, 0x1122, Some(0)),
        ],
    ),
    (
        "a part of a word",
        0x40_0017,
        &[(0, 0x5_0000_0000, Some(0))],
    ),
    ("a whole word", 0x40_0027, &[(0xFF8, 0x40_002C, None)]),
];

#[test]
fn a_word_written_in_part_is_read(rt: HostRuntime) -> Result<(), Fail> {
    let alloc = rt.alloc();
    for (name, rip, expected) in &STORES {
        let mut board = client_at(alloc, *rip)?;
        frames_needed(alloc, &rt, &mut board, CLIENT)?;
        let block = one_step(alloc, &mut board, CLIENT)?;
        let writes = writes_of(alloc, &block)?;
        assert_same(&rt, name, &writes.as_slice(), expected);
        // The copies are as they were given.
        let again = one_step(alloc, &mut board, CLIENT)?;
        assert_same(&rt, name, &again.reads.items(), &block.reads.items());
    }
    Ok(())
}

// ---- the kernels' steps

/// Whether the next step of a core is the kernels'.
fn is_kernel_step(alloc: Global, board: &mut Board, core: u8) -> Result<bool, Fail> {
    Ok(fresh_block(alloc, board, core, 8)?.is_none())
}

#[test]
fn a_block_ends_before_the_kernels_step(rt: HostRuntime) -> Result<(), Fail> {
    let alloc = rt.alloc();
    let mut board = client_at(alloc, 0x40_0000)?;
    let block = fresh_block(alloc, &mut board, CLIENT, 8)?.ok_or("the client goes on")?;
    assert_same(&rt, "steps", &block.steps.items().len(), &2);
    step_to(&mut board, CLIENT, 0x40_000A)?;
    assert_same(
        &rt,
        "SYSCALL",
        &is_kernel_step(alloc, &mut board, CLIENT)?,
        &true,
    );
    step_to(&mut board, CLIENT, 0x40_0036)?;
    assert_same(
        &rt,
        "fault",
        &is_kernel_step(alloc, &mut board, CLIENT)?,
        &true,
    );
    Ok(())
}
