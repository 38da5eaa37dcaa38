//! The commit of a block.

ghost use Rattle.std.specs.Prelude.{◌≡◌, ◌<◌, length, IfNone, IfSome};
ghost use Rattle.sb_memory.specs.Physical.{frame_count};
ghost use Rattle.sb_machine.specs.Counts.{made_by};
ghost use Rattle.sb_machine.specs.Machine.{state_at};
ghost use Rattle.sb_book.specs.Commit.{AllHoldNow, ArePlacesOf, Commits, IsBlockOf, IsFirstStale, IsPlaceOf, value_now};
ghost use Rattle.sb_book.specs.History.{IsRunning};

use crate::history::History;
use sb_block::{Block, Place, Seen};
use sb_machine::Machine;
use sb_memory::PhysAddr;

/// Why a block is not committed.
#[derive(Clone, Copy, Debug, PartialEq, Eq)]
pub enum CommitRefusal {
    /// The block has more steps than there is room, which is this.
    Full { room: u32 },
    /// The first place that the block read which holds another value now.
    Stale { place: Place, seen: u64, now: u64 },
}

/// What stands at a place.
fn value_now(machine: &Machine, place: Place) -> u64
    requires { IsPlaceOf machine.now place }
    ensures { result ≡ value_now machine.now place }
{
    match place {
        Place::Word(place) => machine.word(PhysAddr(place)),
        Place::Core(core) => machine.core_state(core).made,
    }
}

/// The first of these that holds another value now, with that value.
fn first_stale(machine: &Machine, seens: &[Seen]) -> Option<(Seen, u64)>
    requires { ArePlacesOf machine.now seens.now }
    ensures none { IfNone result (AllHoldNow machine.now seens.now) }
    ensures some { IfSome result (λ found. IsFirstStale machine.now seens.now found.0.place found.0.value found.1) }
{
    for seen in seens {
        let now = value_now(machine, seen.place);
        if now != seen.value {
            return Some((*seen, now));
        }
    }
    None
}

impl History {
    /// Makes the steps of a block, if there is room and all that it read still holds. It takes no memory.
    ///
    /// # Errors
    ///
    /// `Full` comes exactly where the block has more steps than there is room, and else `Stale` exactly where a place that was
    /// read holds another value now, for the first such place. The history is as before then.
    pub fn commit(&mut self, block: &Block) -> Result<(), CommitRefusal>
        requires block { IsBlockOf (frame_count self.old.machine.memory) block.now.core block.now.before block.now.after
            block.now.steps block.now.reads block.now.writes }
        requires core { block.now.core < length self.old.machine.cores }
        requires running { IsRunning self.old.machine block.now.core }
        requires state { made_by self.old.machine block.now.core ≡ block.now.before.made
            → state_at self.old.machine block.now.core ≡ block.now.before }
        ensures { Commits self.old block.now.core block.now.steps block.now.reads result self.new }
    {
        let room = self.room();
        if (room as usize) < block.steps.items().len() {
            return Err(CommitRefusal::Full { room });
        }
        if let Some((seen, now)) = first_stale(self.machine(), block.reads.items()) {
            return Err(CommitRefusal::Stale {
                place: seen.place,
                seen: seen.value,
                now,
            });
        }
        // no frame is missing
        self.machine().frames();
        self.make(block);
        Ok(())
    }
}
