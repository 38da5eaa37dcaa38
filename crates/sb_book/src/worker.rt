//! A worker: it makes the steps of its core, in blocks outside the lock where it can.

ghost use Rattle.std.specs.Prelude.{◌≡◌, ◌+◌, ◌<◌, ◌≤◌, true, false, IfOk, IfSome};
ghost use Rattle.sb_book.specs.Commit.{IsBlockOf};

use crate::book::{Book, Task};
use crate::share::Share;
use crate::workbench::Workbench;
use sb_block::{Block, Stop};
use std::alloc::{AllocError, Global};
use std::sync::ledger::Ledger;
use std::sync::{Mutex, Wait};

/// What a worker calls before each turn, outside the lock. Turns count from 0 for each worker.
pub trait Gate {
    /// The worker of this core is about to begin this turn.
    fn before(&self, core: u8, turn: u64);
}

/// A gate that does nothing.
#[derive(Clone, Copy, Debug)]
pub struct OpenGate;

impl Gate for OpenGate {
    fn before(&self, _core: u8, _turn: u64) {}
}

/// A block of the worker's core; `None` where the worker has a step to make under the lock, or none to make.
fn next_block<E: Task, Z: Ledger, W: Wait>(
    rt: &W,
    alloc: Global,
    book: &Mutex<Book<E, Z>>,
    bench: &mut Workbench,
) -> Result<Option<Block>, AllocError>
    ensures block { IfOk result (λ made. IfSome made (λ block. IsBlockOf bench.old.frames block.core block.before block.after
        block.steps block.reads block.writes)) }
    ensures frames { bench.new.frames ≡ bench.old.frames }
{
    let mut wanted = None;
    for _ in rt.forever() {
        let begun = bench.begin(alloc, &*book.lock(rt), wanted)?;
        let Some(start) = begun else {
            return Ok(None);
        };
        match bench.block(alloc, &start) {
            Ok(block) => return Ok(Some(block)),
            Err(Stop::NeedFrame(frame)) => wanted = Some(frame),
            Err(Stop::Kernel) => return Ok(None),
            Err(Stop::Memory) => return Err(AllocError),
        }
    }
    unreachable!()
}

/// A turn of a worker: a block, else one step, else a stop. Whether a stop unit was given.
fn turn<E: Task, Z: Ledger, W: Wait>(
    rt: &W,
    alloc: Global,
    book: &Mutex<Book<E, Z>>,
    bench: &mut Workbench,
    share: &mut Share<E, Z>,
) -> Result<bool, AllocError>
    requires parts { (0 < share.old.entries.parts) × (0 < share.old.stops.parts) }
    ensures made { share.old.entries.amount ≤ share.new.entries.amount }
    ensures given { IfOk result (λ stopped. stopped ≡ true → share.new.stops.amount ≡ share.old.stops.amount + 1) }
    ensures going { IfOk result (λ stopped. stopped ≡ false → share.new.stops.amount ≡ share.old.stops.amount) }
    ensures kept { (share.new.entries.parts ≡ share.old.entries.parts) × (share.new.stops.parts ≡ share.old.stops.parts) }
    ensures frames { bench.new.frames ≡ bench.old.frames }
{
    match next_block(rt, alloc, book, bench)? {
        Some(block) => bench.commit(alloc, &mut *book.lock(rt), &block, share),
        None => Ok(book.lock(rt).turn(bench.core, share)),
    }
}

/// Runs a core until its thread has ended or the journal is full, and then whichever core runs. It answers once it was given
/// a stop unit, and tries a stop that was refused again.
///
/// While its own thread runs it makes at most `block` steps outside the lock, on copies of frames, and commits them at one
/// taking of it; a step that is the kernels' to do, and one after a commit that was refused, is made under the lock. That it
/// answers is not promised. An error is want of memory.
pub fn work<E: Task, Z: Ledger, W: Wait, G: Gate>(
    rt: &W,
    alloc: Global,
    book: &Mutex<Book<E, Z>>,
    gate: &G,
    core: u8,
    block: u32,
    share: Share<E, Z>,
) -> Result<Share<E, Z>, AllocError>
    requires parts { (0 < share.entries.parts) × (0 < share.stops.parts) }
    requires block { 1 ≤ block }
    ensures kept { IfOk result (λ back. (back.entries.parts ≡ share.entries.parts) × (back.stops.parts ≡ share.stops.parts)) }
    ensures made { IfOk result (λ back. share.entries.amount ≤ back.entries.amount) }
    ensures stopped { IfOk result (λ back. share.stops.amount + 1 ≤ back.stops.amount) }
{
    let mut share = share;
    let frames = book.lock(rt).frames();
    let mut bench = Workbench::new(core, block, frames);
    let mut turns: u64 = 0;
    for _ in rt.forever() {
        gate.before(core, turns);
        if turn(rt, alloc, book, &mut bench, &mut share)? {
            return Ok(share);
        }
        turns = turns.wrapping_add(1);
    }
    unreachable!()
}
