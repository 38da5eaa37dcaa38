//! What steps of a core that are made elsewhere need of the machine, and how they are applied to it.

ghost use Rattle.std.specs.Prelude.{◌≡◌, ◌<◌, List, length};
ghost use Rattle.sb_memory.specs.Frames.{frame_bytes};
ghost use Rattle.sb_memory.specs.Physical.{HasAllFrames, IsPhysical, IsWordPlace, frame_count};
ghost use Rattle.sb_memory.specs.Words.{word_at};
ghost use Rattle.sb_memory.specs.declared.page.TheConstants.{PAGE_SIZE};
ghost use Rattle.sb_trace.specs.State.{State};
ghost use Rattle.sb_trace.specs.declared.event.Event.{Event};
ghost use Rattle.sb_machine.specs.Counts.{made_by};
ghost use Rattle.sb_machine.specs.Machine.{Machine, state_at};
ghost use Rattle.sb_machine.specs.OwnSteps.{AreSteps, HasWalks};
ghost use Rattle.sb_machine.specs.StandsFor.{IsMachineOf};
ghost use Rattle.sb_machine.specs.Translations.{SameTranslations};

use crate::apply::apply;
use crate::frame::frame_bytes;
use crate::laws::own_steps_are_plain;
use crate::machine::Machine;
use crate::place::Seens;
use crate::processor::CoreState;
use sb_memory::{Frame, Phys, PhysAddr};

impl Machine {
    /// The state of a core, with how many lines it has made.
    pub fn core_state(&self, core: u8) -> CoreState
        requires { core < length self.now.cores }
        ensures state { result ≡ state_at self.now core }
        ensures walks { HasWalks (frame_count self.now.memory) result }
    {
        self.parts.core(core).state
    }

    /// The number of frames, of which none is missing.
    pub fn frames(&self) -> u32
        ensures count { result ≡ frame_count self.now.memory }
        ensures sound { IsPhysical self.now.memory }
        ensures all { HasAllFrames self.now.memory }
    {
        self.parts.memory.frames()
    }

    /// The 4,096 bytes of a frame.
    pub fn frame_bytes(&self, frame: Frame) -> &[u8]
        requires { frame.0 < frame_count self.now.memory }
        ensures bytes { result.now ≡ frame_bytes self.now.memory frame.0 }
        ensures size { length result.now ≡ PAGE_SIZE }
    {
        frame_bytes(&self.parts.memory, frame)
    }

    /// The word at a physical address.
    pub fn word(&self, at: PhysAddr) -> u64
        requires { IsWordPlace self.now.memory at.0 }
        ensures { result ≡ word_at self.now.memory.bytes at.0 }
    {
        self.parts.memory.word(at)
    }

    /// Leaves the machine as it is behind steps of a core that it makes by itself, of which the state of the core and the words
    /// of memory behind them are given. It takes no memory.
    ///
    /// Only where no flight begins in those steps that is not decided at their end: of such a flight the machine keeps more than
    /// the state of the core says. It counts the lines of those steps, and leaves each translation as it was.
    pub fn apply(&mut self, core: u8, after: &CoreState, writes: &Seens)
        requires there { core < length self.old.cores }
        requires made { (events : List Event) × (new : Machine) × AreSteps self.old core events after.now writes.now new }
        ensures applied { (events : List Event) (new : Machine) → AreSteps self.old core events after.now writes.now new
            → self.new ≡ new }
        ensures stands { (state : State) × IsMachineOf self.new state }
        ensures translations { SameTranslations self.old self.new }
        ensures counts { made_by self.new core ≡ after.now.made }
        ensures frames { frame_count self.new.memory ≡ frame_count self.old.memory }
        ensures cores { length self.new.cores ≡ length self.old.cores }
    {
        own_steps_are_plain();
        apply(&mut self.parts, core, after, writes);
    }
}
