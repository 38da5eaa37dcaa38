//! What a worker has outside the lock.

ghost use Rattle.std.specs.Prelude.{◌≡◌, ◌+◌, ◌<◌, ◌≤◌, true, false, length, IfOk, IfSome};
ghost use Rattle.sb_memory.specs.Physical.{frame_count};
ghost use Rattle.sb_partial.specs.Copies.{untouched};
ghost use Rattle.sb_machine.specs.OwnSteps.{HasWalks};
ghost use Rattle.sb_book.specs.Commit.{IsBlockOf};
ghost use Rattle.sb_book.specs.History.{IsDone, IsRunning};

use crate::book::{Book, Task};
use crate::share::Share;
use sb_block::{Block, CoreState, Partial, Place, Seen, Stop, run_block};
use sb_memory::{Frame, PAGE_SIZE};
use std::alloc::{AllocError, Global};
use std::sync::ledger::Ledger;

/// Copies of frames, on which a worker makes blocks of steps of its core.
#[derive(Drop)]
pub struct Workbench {
    /// The core of its blocks.
    pub core: u8,
    /// The most steps of a block.
    limit: u32,
    /// The number of frames of the machine.
    pub frames: u32,
    copies: Partial,
    ghost some: { 1 ≤ limit },
    ghost as_given: { copies ≡ untouched copies.given },
    ghost all_frames: { frame_count copies.given ≡ frames },
}

impl Workbench {
    /// No copies yet, of so many frames. It takes no memory.
    pub fn new(core: u8, limit: u32, frames: u32) -> Workbench
        requires limit { 1 ≤ limit }
        requires some { 1 ≤ frames }
        requires few { frames ≤ 8192 }
        ensures { result.frames ≡ frames }
    {
        Workbench {
            core,
            limit,
            frames,
            copies: Partial::new(frames),
        }
    }

    /// Takes a copy of a frame from the book; false, and nothing is taken, where there is no such frame.
    fn take_copy<E: Task, Z: Ledger>(
        &mut self,
        alloc: Global,
        book: &Book<E, Z>,
        frame: u64,
    ) -> Result<bool, AllocError>
        ensures frames { self.new.frames ≡ self.old.frames }
        ensures core { self.new.core ≡ self.old.core }
    {
        if frame >= u64::from(self.frames) || frame >= u64::from(book.frames()) {
            return Ok(false);
        }
        let frame = Frame(frame as u32);
        self.copies.give(alloc, frame, book.copy_frame(frame))?;
        Ok(true)
    }

    /// What a block begins with: the state of the core, with a copy of the frame that is wanted. `None` where the worker has a
    /// step to make under the lock, or none to make.
    #[tactic(auto, using(crate::proofs::Running::running_there))]
    pub fn begin<E: Task, Z: Ledger>(
        &mut self,
        alloc: Global,
        book: &Book<E, Z>,
        wanted: Option<Frame>,
    ) -> Result<Option<CoreState>, AllocError>
        ensures walks { IfOk result (λ start. IfSome start (λ state. HasWalks self.old.frames state)) }
        ensures frames { self.new.frames ≡ self.old.frames }
    {
        if book.room() == 0 || book.frames() != self.frames || book.ended(self.core) {
            return Ok(None);
        }
        if let Some(frame) = wanted {
            if !self.take_copy(alloc, book, u64::from(frame.0))? {
                return Ok(None);
            }
        }
        Ok(Some(book.core_state(self.core)))
    }

    /// Makes a block of the core, from this state on.
    #[tactic(auto, using(crate::proofs::Made::is_block_of))]
    pub fn block(&mut self, alloc: Global, start: &CoreState) -> Result<Block, Stop>
        requires walks { HasWalks self.old.frames start.now }
        ensures block { IfOk result (λ block. IsBlockOf self.old.frames block.core block.before block.after
            block.steps block.reads block.writes) }
        ensures frames { self.new.frames ≡ self.old.frames }
    {
        let block = run_block(alloc, &mut self.copies, self.core, start, self.limit)?;
        Ok(block)
    }

    /// Takes new copies of the frames in which these words stand.
    fn renew<E: Task, Z: Ledger>(
        &mut self,
        alloc: Global,
        book: &Book<E, Z>,
        written: &[Seen],
    ) -> Result<(), AllocError>
        ensures frames { self.new.frames ≡ self.old.frames }
    {
        // words that stand in one frame often follow one another
        let mut last = None;
        for seen in written {
            if let Place::Word(place) = seen.place {
                let frame = place / PAGE_SIZE;
                if last != Some(frame) {
                    self.take_copy(alloc, book, frame)?;
                    last = Some(frame);
                }
            }
        }
        Ok(())
    }

    /// Commits a block. Where that is refused all copies are given up, since some may be old, and the worker makes a turn
    /// without blocks. Whether a stop unit was given.
    pub fn commit<E: Task, Z: Ledger>(
        &mut self,
        alloc: Global,
        book: &mut Book<E, Z>,
        block: &Block,
        share: &mut Share<E, Z>,
    ) -> Result<bool, AllocError>
        requires block { IsBlockOf self.old.frames block.now.core block.now.before block.now.after
            block.now.steps block.now.reads block.now.writes }
        requires parts { (0 < share.old.entries.parts) × (0 < share.old.stops.parts) }
        ensures made { share.old.entries.amount ≤ share.new.entries.amount }
        ensures given { IfOk result (λ stopped. stopped ≡ true → share.new.stops.amount ≡ share.old.stops.amount + 1) }
        ensures going { IfOk result (λ stopped. stopped ≡ false → share.new.stops.amount ≡ share.old.stops.amount) }
        ensures kept { (share.new.entries.parts ≡ share.old.entries.parts) × (share.new.stops.parts ≡ share.old.stops.parts) }
        ensures frames { self.new.frames ≡ self.old.frames }
    {
        if book.may_commit(block, self.frames) && book.commit(block, share).is_ok() {
            self.renew(alloc, book, block.writes.items())?;
            return Ok(false);
        }
        self.copies.drop_all();
        Ok(book.turn(self.core, share))
    }
}
