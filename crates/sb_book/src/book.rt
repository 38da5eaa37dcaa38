//! The book that the workers share under a lock.

ghost use Rattle.std.specs.Prelude.{◌≡◌, ℕ, ◌+◌, ◌-◌, ◌^◌, ◌<◌, ◌≤◌, ◌↔◌, true, false, length, IsFalse, IfErr, IfOk, IfSome, IfNone};
ghost use Rattle.sb_abi.specs.declared.frames.TheConstants.{MIN_FRAMES, MAX_FRAMES};
ghost use Rattle.sb_memory.specs.Frames.{frame_bytes};
ghost use Rattle.sb_memory.specs.Physical.{frame_count};
ghost use Rattle.sb_memory.specs.declared.page.TheConstants.{PAGE_SIZE};
ghost use Rattle.sb_load.specs.Loading.{Load};
ghost use Rattle.sb_machine.specs.Counts.{made_by};
ghost use Rattle.sb_machine.specs.Machine.{state_at};
ghost use Rattle.sb_machine.specs.OwnSteps.{HasWalks};
ghost use Rattle.sb_book.specs.Commit.{Commits, IsBlockOf};
ghost use Rattle.sb_book.specs.History.{IsBegun, IsRunning, AllEnded, IsOneStep, IsDone, IsLowest, IsOfTask};
ghost use Rattle.sb_book.specs.Book.{IsBook, Turns, no_load};

use crate::commit::CommitRefusal;
use crate::history::History;
use crate::same::are_same_states;
use crate::share::Share;
use sb_block::Block;
use sb_bundle::Bundle;
use sb_load::Loaded;
use sb_machine::{CoreState, Machine};
use sb_memory::Frame;
use sb_trace::Line;
use std::alloc::{AllocError, Global};
use std::marker::{Brand, Model};
use std::sync::ledger;
use std::sync::ledger::{Blank, Ledger};

/// A ledger of entries, which names what the book is made from.
pub trait Task: Ledger {
    /// What the machine starts from.
    ghost load: { Load };

    /// How many entries there is room for.
    ghost limit: { ℕ };
}

impl Task for Brand {
    ghost load = { no_load };

    ghost limit = { 0 };
}

/// A machine with its journal, a ledger of the journal's entries, and one of stop units.
#[derive(Drop)]
pub struct Book<E: Task, Z: Ledger> {
    history: History,
    entries: ledger::Book<E>,
    stops: ledger::Book<Z>,
    /// How many stop units were given.
    given: u64,
}

impl<E: Task, Z: Ledger> Model for Book<E, Z> {
    ghost use Rattle.std.specs.Prelude.{◌≡◌};
    ghost use Rattle.sb_book.specs.History.{IsOfTask};
    ghost use Rattle.sb_book.specs.Book.{Book, IsCounted};

    ghost Value = { Book };

    ghost view = { λ b. record { history = b.history; entries = b.entries.total; stops = b.stops.total } };

    ghost invariant = { λ b. IsCounted (record { history = b.history; entries = b.entries.total; stops = b.stops.total })
        × (b.stops.total ≡ b.given) × IsOfTask E.load E.limit b.history };
}

impl<E: Task, Z: Ledger> Book<E, Z> {
    /// A book with a machine at its start and room for so many entries, and a share with every part.
    ///
    /// `E` names what is loaded and the room, and the blanks are those from which `E` and `Z` are opened.
    pub fn new(
        alloc: Global,
        loaded: Loaded,
        room: u32,
        entries: Blank,
        stops: Blank,
    ) -> Result<(Book<E, Z>, Share<E, Z>), AllocError>
        requires task { (loaded ≡ E.load) × (room ≡ E.limit) }
        requires entries { (entries.name ≡ E.name) × (entries.parts ≡ E.parts) }
        requires stops { (stops.name ≡ Z.name) × (stops.parts ≡ Z.parts) }
        ensures history { IfOk result (λ made. IsBegun loaded room made.0.history) }
        ensures parts { IfOk result (λ made. (made.1.entries.parts ≡ E.parts) × (made.1.stops.parts ≡ Z.parts)) }
        ensures amounts { IfOk result (λ made. (made.1.entries.amount ≡ 0) × (made.1.stops.amount ≡ 0)) }
    {
        let history = History::new(alloc, loaded, room)?;
        let (entries, entry_share) = entries.open::<E>();
        let (stops, stop_share) = stops.open::<Z>();
        let share = Share {
            entries: entry_share,
            stops: stop_share,
        };
        let book = Book {
            history,
            entries,
            stops,
            given: 0,
        };
        Ok((book, share))
    }

    /// The machine and its journal, and what is known of a book: its lines are those of the plain machine's run under the
    /// journal, none is `idle`, the machine stands for the last state of that run, the shares' entries are the journal's, and a
    /// stop unit was given only where nothing is left to do.
    pub fn history(&self) -> &History
        ensures history { result.now ≡ self.now.history }
        ensures known { IsBook self.now }
        ensures task { IsOfTask E.load E.limit self.now.history }
    {
        let _ = self.history.lines();
        &self.history
    }

    /// The machine and its journal.
    pub fn into_history(self) -> History
        ensures same { result ≡ self.history }
        ensures task { IsOfTask E.load E.limit result }
    {
        self.history
    }

    /// The bundle from which the machine was started.
    pub fn bundle(&self) -> &Bundle
        ensures { result.now ≡ self.now.history.load.bundle }
    {
        self.history.loaded().bundle()
    }

    /// The machine.
    pub fn machine(&self) -> &Machine
        ensures { result.now ≡ self.now.history.machine }
    {
        self.history.machine()
    }

    /// The core of each step.
    pub fn journal(&self) -> &[u8]
        ensures { result.now ≡ self.now.history.journal }
    {
        self.history.journal()
    }

    /// The line of each step.
    pub fn lines(&self) -> &[Line]
        ensures { result.now ≡ self.now.history.lines }
    {
        self.history.lines()
    }

    /// How many further entries there is room for.
    pub fn room(&self) -> u32
        ensures { result ≡ self.now.history.room }
    {
        self.history.room()
    }

    /// The number of cores.
    pub fn cores(&self) -> u8
        ensures { result ≡ length self.now.history.machine.cores }
    {
        self.history.cores()
    }

    /// The number of frames of the bundle, which is that of the machine.
    pub fn frames(&self) -> u32
        ensures bundle { result ≡ self.now.history.load.bundle.frames }
        ensures machine { result ≡ frame_count self.now.history.machine.memory }
        ensures limits { (MIN_FRAMES ≤ result) × (result ≤ MAX_FRAMES) }
    {
        self.history().frames()
    }

    /// The state of a core, with how many lines it has made.
    pub fn core_state(&self, core: u8) -> CoreState
        requires { core < length self.now.history.machine.cores }
        ensures state { result ≡ state_at self.now.history.machine core }
        ensures walks { HasWalks (frame_count self.now.history.machine.memory) result }
    {
        self.machine().core_state(core)
    }

    /// The 4,096 bytes of a frame.
    pub fn copy_frame(&self, frame: Frame) -> &[u8]
        requires { frame.0 < frame_count self.now.history.machine.memory }
        ensures bytes { result.now ≡ frame_bytes self.now.history.machine.memory frame.0 }
        ensures size { length result.now ≡ PAGE_SIZE }
    {
        self.machine().frame_bytes(frame)
    }

    /// Whether the thread of a core has ended.
    pub fn ended(&self, core: u8) -> bool
        ensures { IsFalse result ↔ IsRunning self.now.history.machine core }
    {
        self.history.ended(core)
    }

    /// The lowest core whose thread goes on; `None` exactly where every thread has ended.
    pub fn running(&self) -> Option<u8>
        ensures some { IfSome result (λ core. IsLowest self.now.history.machine core) }
        ensures none { IfNone result (AllEnded self.now.history.machine) }
    {
        self.history.running()
    }

    /// One step of a core whose thread runs: an entry of the journal, and one of the share. It takes no memory.
    pub fn step_one(&mut self, core: u8, share: &mut Share<E, Z>)
        requires running { IsRunning self.old.history.machine core }
        requires room { 0 < self.old.history.room }
        requires parts { (0 < share.old.entries.parts) × (0 < share.old.stops.parts) }
        ensures step { IsOneStep self.old.history core self.new.history }
        ensures stops { self.new.stops ≡ self.old.stops }
        ensures made { share.new.entries.amount ≡ share.old.entries.amount + 1 }
        ensures units { share.new.stops.amount ≡ share.old.stops.amount }
        ensures kept { (share.new.entries.parts ≡ share.old.entries.parts) × (share.new.stops.parts ≡ share.old.stops.parts) }
    {
        let Book {
            history,
            entries,
            stops: _,
            given: _,
        } = self;
        history.step(core);
        entries.add(&mut share.entries, 1);
    }

    /// Whether a block over so many frames may be committed: it is one of this machine and of a thread that runs, and where its
    /// core has made no line since the block began, it is as the block begins.
    pub fn may_commit(&self, block: &Block, frames: u32) -> bool
        ensures frames { result ≡ true → frames ≡ frame_count self.now.history.machine.memory }
        ensures core { result ≡ true → block.now.core < length self.now.history.machine.cores }
        ensures running { result ≡ true → IsRunning self.now.history.machine block.now.core }
        ensures state { result ≡ true → made_by self.now.history.machine block.now.core ≡ block.now.before.made
            → state_at self.now.history.machine block.now.core ≡ block.now.before }
    {
        if frames != self.frames() || block.core >= self.cores() || self.ended(block.core) {
            return false;
        }
        let now = self.core_state(block.core);
        now.made != block.before.made || are_same_states(&now, &block.before)
    }

    /// Makes the steps of a block, if there is room and all that it read still holds: an entry of the journal for each, and one
    /// of the share. It takes no memory.
    ///
    /// # Errors
    ///
    /// `Full` comes exactly where the block has more steps than there is room, and else `Stale` exactly where a place that was
    /// read holds another value now, for the first such place. The book and the share are as before then.
    pub fn commit(&mut self, block: &Block, share: &mut Share<E, Z>) -> Result<(), CommitRefusal>
        requires block { IsBlockOf (frame_count self.old.history.machine.memory) block.now.core block.now.before block.now.after
            block.now.steps block.now.reads block.now.writes }
        requires core { block.now.core < length self.old.history.machine.cores }
        requires running { IsRunning self.old.history.machine block.now.core }
        requires state { made_by self.old.history.machine block.now.core ≡ block.now.before.made
            → state_at self.old.history.machine block.now.core ≡ block.now.before }
        requires parts { (0 < share.old.entries.parts) × (0 < share.old.stops.parts) }
        ensures commit { Commits self.old.history block.now.core block.now.steps block.now.reads result self.new.history }
        ensures stops { self.new.stops ≡ self.old.stops }
        ensures made { IfOk result (λ _. share.new.entries.amount ≡ share.old.entries.amount + length block.now.steps) }
        ensures refused { IfErr result (λ _. (self.new ≡ self.old) × (share.new.entries.amount ≡ share.old.entries.amount)) }
        ensures units { share.new.stops.amount ≡ share.old.stops.amount }
        ensures kept { (share.new.entries.parts ≡ share.old.entries.parts) × (share.new.stops.parts ≡ share.old.stops.parts) }
    {
        let Book {
            history,
            entries,
            stops: _,
            given: _,
        } = self;
        history.commit(block)?;
        entries.add(&mut share.entries, block.steps.items().len() as u64);
        Ok(())
    }

    /// Gives a stop unit, where nothing is left to do. It answers false, and changes nothing, exactly where no more can be
    /// counted.
    pub fn stop(&mut self, share: &mut Share<E, Z>) -> bool
        requires done { IsDone self.old.history }
        requires parts { (0 < share.old.entries.parts) × (0 < share.old.stops.parts) }
        ensures full { (result ≡ false) ↔ (self.old.stops ≡ 2 ^ 64 - 1) }
        ensures same { self.new.history ≡ self.old.history }
        ensures refused { result ≡ false → (self.new ≡ self.old) × (share.new.stops.amount ≡ share.old.stops.amount) }
        ensures given { result ≡ true
            → (self.new.stops ≡ self.old.stops + 1) × (share.new.stops.amount ≡ share.old.stops.amount + 1) }
        ensures made { share.new.entries.amount ≡ share.old.entries.amount }
        ensures kept { (share.new.entries.parts ≡ share.old.entries.parts) × (share.new.stops.parts ≡ share.old.stops.parts) }
    {
        if self.given == u64::MAX {
            return false;
        }
        let Book {
            history: _,
            entries: _,
            stops,
            given,
        } = self;
        stops.add(&mut share.stops, 1);
        *given += 1;
        true
    }

    /// Changes nothing, and shows how a share with every part stands to the journal.
    pub fn audit(&mut self, all: &mut Share<E, Z>)
        requires { (all.old.entries.parts ≡ E.parts) × (all.old.stops.parts ≡ Z.parts) }
        ensures same { self.new ≡ self.old }
        ensures entries { all.new.entries.amount ≡ length self.new.history.journal }
        ensures done { 0 < all.new.stops.amount → IsDone self.new.history }
        ensures share { (all.new.entries.amount ≡ all.old.entries.amount) × (all.new.stops.amount ≡ all.old.stops.amount) }
        ensures kept { (all.new.entries.parts ≡ all.old.entries.parts) × (all.new.stops.parts ≡ all.old.stops.parts) }
    {
        self.entries.audit(&mut all.entries);
        self.stops.audit(&mut all.stops);
    }

    /// A turn of a worker of this core: one step where there is one to make, else a stop. Whether a stop unit was given.
    pub fn turn(&mut self, core: u8, share: &mut Share<E, Z>) -> bool
        requires parts { (0 < share.old.entries.parts) × (0 < share.old.stops.parts) }
        ensures turn { Turns core self.old.history self.new.history }
        ensures made { share.new.entries.amount + length self.old.history.journal
            ≡ share.old.entries.amount + length self.new.history.journal }
        ensures given { result ≡ true → IsDone self.new.history × (share.new.stops.amount ≡ share.old.stops.amount + 1) }
        ensures full { result ≡ false → IsDone self.old.history → self.old.stops ≡ 2 ^ 64 - 1 }
        ensures going { result ≡ false → share.new.stops.amount ≡ share.old.stops.amount }
        ensures kept { (share.new.entries.parts ≡ share.old.entries.parts) × (share.new.stops.parts ≡ share.old.stops.parts) }
    {
        match self.history().next(core) {
            Some(next) => {
                self.step_one(next, share);
                false
            }
            None => self.stop(share),
        }
    }
}
