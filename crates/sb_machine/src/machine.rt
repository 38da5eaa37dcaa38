//! The machine.

ghost use Rattle.std.specs.Prelude.{◌≡◌, ◌<◌, ◌↔◌, [], IfOk, IsFalse, length};
ghost use Rattle.sb_load.specs.FirstState.{first_state};
ghost use Rattle.sb_memory.specs.Physical.{frame_count};
ghost use Rattle.sb_slots.specs.Marks.{mark};
ghost use Rattle.sb_trace.specs.State.{State, thread_at};
ghost use Rattle.sb_machine.specs.Counts.{CountsLine};
ghost use Rattle.sb_machine.specs.Landing.{HaveLandingRegisters, LeavesCores};
ghost use Rattle.sb_machine.specs.Laws.{FollowsWithMark};
ghost use Rattle.sb_machine.specs.Machine.{core_at};
ghost use Rattle.sb_machine.specs.Marks.{StepsWithMark, map_shown};
ghost use Rattle.sb_machine.specs.Ran.{HasRun};
ghost use Rattle.sb_machine.specs.StandsFor.{IsMachineOf};
ghost use Rattle.sb_machine.specs.Translations.{KeepsTranslations};

use crate::laws::steps_are_plain;
use crate::parts::Parts;
use crate::start::first_parts;
use crate::step::step;
use sb_load::Loaded;
use sb_slots::Mark;
use sb_state::EndKind;
use sb_trace::Line;
use std::alloc::{AllocError, Global};
use std::marker::Model;

/// A machine with page tables that stands for a state of the plain machine. To contracts it is its memory, what its kernels
/// keep, and its cores.
#[derive(Drop)]
pub struct Machine {
    pub(crate) parts: Parts,
}

impl Model for Machine {
    ghost use Rattle.sb_trace.specs.State.{State};
    ghost use Rattle.sb_machine.specs.Machine.{Machine};
    ghost use Rattle.sb_machine.specs.StandsFor.{IsMachineOf};

    ghost Value = { Machine };

    ghost view = { λ machine. machine.parts };

    ghost invariant = { λ machine. (state : State) × IsMachineOf machine.parts state };
}

impl Machine {
    /// The machine at the start of a loaded bundle: it stands for the start of the plain machine, has the bundle's frames, and no
    /// core has made a line.
    ///
    /// # Errors
    ///
    /// Want of memory alone.
    pub fn new(alloc: Global, loaded: &Loaded) -> Result<Machine, AllocError>
        ensures { IfOk result (λ machine. HasRun machine loaded.now [] [] (first_state loaded.now)) }
    {
        let parts = first_parts(alloc, loaded)?;
        Ok(Machine { parts })
    }

    /// One step of a core: its line, with its mark (docs/MARKS.md). It takes no memory.
    ///
    /// The step is the written one, through the walks of the core's own words, and counts one line of its core. From each state
    /// for which the machine stands the plain machine has a step with this line, of which the laws hold (docs/LAWS.md), and the
    /// machine stands for the state after it.
    ///
    /// Each translation through each pointer of a list gives the address or the refusal that it gave, but where a call is served.
    /// That one, if it does not protect, leaves each translation that gave an address.
    ///
    /// Behind the step each thread in flight, of any core, has the registers that the landing gives at its phase. And the step
    /// leaves each other core as it was, with all that the landing of its thread looks at: its list, and through the list the
    /// trampoline and the record page, and the pool page but where an instruction writes it or an entry takes a stack.
    pub fn step(&mut self, core: u8) -> Line
        requires { core < length self.old.cores }
        ensures core { result.core ≡ core }
        ensures step { StepsWithMark self.old core result.event self.new }
        ensures plain { (state : State) → IsMachineOf self.old state → FollowsWithMark self.new state core result.event }
        ensures translations { KeepsTranslations result.event self.old self.new }
        ensures landing { HaveLandingRegisters self.new }
        ensures apart { LeavesCores result.event core self.old self.new }
        ensures stands { (state : State) × IsMachineOf self.new state }
        ensures counts { CountsLine self.old core self.new }
        ensures cores { length self.new.cores ≡ length self.old.cores }
        ensures frames { frame_count self.new.memory ≡ frame_count self.old.memory }
    {
        steps_are_plain();
        let event = step(&mut self.parts, core);
        Line { core, event }
    }

    /// What the step of an instruction at `rip` is to the text of the process that a view of the core's thread shows, where RIP is
    /// `next` behind it, and `scratch` says whether it accessed the scratch page (docs/MARKS.md). `step` marks its lines so.
    pub fn mark(&self, core: u8, view: u16, rip: u64, next: u64, scratch: bool) -> Mark
        requires { core < length self.now.cores }
        ensures { result ≡ mark (map_shown self.now core view) rip next scratch }
    {
        self.parts.kernel.mark(core, view, rip, next, scratch)
    }

    /// Whether the thread of a core has ended, by itself or by a fault.
    pub fn ended(&self, core: u8) -> bool
        requires { core < length self.now.cores }
        ensures ended { IsFalse result ↔ ((core_at self.now core).end ≡ EndKind.Running) }
        ensures plain { (state : State) → IsMachineOf self.now state
            → IsFalse result ↔ ((thread_at state core).state ≡ EndKind.Running) }
    {
        !matches!(self.parts.core(core).end, EndKind::Running)
    }
}
