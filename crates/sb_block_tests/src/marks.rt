//! A block of code that the rewriter has moved: its steps have the marks of the machine's.

use crate::board::{Board, fresh_block};
use crate::runs::assert_block;
use crate::same::assert_same;
use sb_abi::TEXT_ADDRESS;
use sb_block::Block;
use sb_bundle::read_bundle;
use sb_load::{Loaded, load};
use sb_trace::Event;
use std::alloc::Global;
use std::test::Fail;

/// 700 frames and one process. VMFUNC has become three NOPs, MOV EAX, 00D4010F stands in a slot, and the load is of the scratch
/// page.
#[rattlefmt::skip]
const BUNDLE: [u8; 75] = [
    0x53, 0x4B, 0x59, 0x42, 1, 0, 2, 1, 0xBC, 0x02, 0, 0, 0, 0, 0, 0, 0, 0, 0, 0, // header
    0x13, 0, 0, 0, 0, 0, 0, 0, 0, 0, 0, 0, // process 0
    0x0F, 0x01, 0xD4, // 00: VMFUNC
    0xB8, 0x0F, 0x01, 0xD4, 0, // 03: MOV EAX, 00D4010F
    0x8B, 0x04, 0x25, 0, 0x40, 0, 0x70, // 08: MOV EAX, [70004000]
    0x31, 0xC0, 0x0F, 0x05, // 0F: XOR EAX, EAX; SYSCALL
    0, 0, 0, 0, 0, 0, 0x40, 0, 0, 0, 0, 0, // core 0
    0, 0, 0, 0, 0, 0, 0x40, 0, 0, 0, 0, 0, // core 1
];

/// The bundle, loaded.
fn loaded(alloc: Global) -> Result<Loaded, Fail> {
    let bundle = read_bundle(alloc, &BUNDLE)
        .ok()
        .ok_or("the bytes are a bundle")?;
    Ok(load(alloc, &bundle).ok().ok_or("the bundle may be loaded")?)
}

/// Whether a line is of an addition in the text itself, and not in the slots.
fn is_extra_in_text(line: Option<Event>) -> bool {
    matches!(line, Some(Event::Extra { rip }) if rip >= TEXT_ADDRESS)
}

/// How many steps stand for an instruction of the text, stray, and are additions in the text itself.
type Counts = [usize; 3];

/// Counts the steps of a block by their marks.
fn count(board: &Board, block: &Block, counts: &mut Counts) {
    for step in block.steps.items() {
        match board.marked(0, step) {
            Some(Event::Step { .. }) => counts[0] = counts[0].wrapping_add(1),
            Some(Event::Stray { .. }) => counts[1] = counts[1].wrapping_add(1),
            line if is_extra_in_text(line) => counts[2] = counts[2].wrapping_add(1),
            _ => {}
        }
    }
}

#[test]
fn steps_of_moved_code_have_the_marks_of_the_machine(rt: HostRuntime) -> Result<(), Fail> {
    let alloc = rt.alloc();
    let mut board = Board::of(alloc, &loaded(alloc)?)?;
    let mut counts = [0; 3];
    // until the SYSCALL
    for _ in 0..32 {
        let Some(block) = fresh_block(alloc, &mut board, 0, 32)? else {
            break;
        };
        count(&board, &block, &mut counts);
        assert_block(&rt, &mut board, 0, &block);
    }
    // VMFUNC, MOV and XOR; the load of the scratch page; two NOPs and the jump to the slot
    assert_same(&rt, "marks", &counts, &[3, 1, 3]);
    Ok(())
}
