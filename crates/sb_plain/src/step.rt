//! A step of the plain machine.

ghost use Rattle.std.specs.Prelude.{◌≡◌, None, length};
ghost use Rattle.sb_insn.specs.Grammar.{IsValid};
ghost use Rattle.sb_slots.specs.Marks.{mark};
ghost use Rattle.sb_state.specs.State.{thread_at, flight_at, process_at};
ghost use Rattle.sb_trace.specs.Flight.{vmfunc_outcome};
ghost use Rattle.sb_trace.specs.Step.{Steps, GoesOn, RunsOn, Performs, StopsWith};
ghost use Rattle.sb_trace.specs.Marks.{StepsWithMark, StepsAlikeWithMark, event_with_mark, map_in};
ghost use Rattle.sb_trace.specs.Changes.{StepChanges};
ghost use Rattle.sb_trace.specs.Laws.{HasOneSwitch};
ghost use Rattle.sb_trace.specs.Sound.{IsSound};
ghost use Rattle.sb_plain.specs.RefusedCall.{IsRefusedCall, LeavesAll};
ghost use Rattle.sb_plain.specs.Scratch.{TellsScratch};
ghost use Rattle.sb_trace.specs.Faults.{IsFault};

use crate::fault::fault;
use crate::flight::{landing_step, vmfunc};
use crate::instruction::{fetch_next, perform};
use crate::plain::Plain;
use crate::system_call::system_call;
use sb_exec::{BusStop, Effect, FaultKind};
use sb_insn::{Insn, Regs};
use sb_slots::Mark;
use sb_state::{EndKind, PlainState, process_now};
use sb_trace::{Event, Line, line_of_mark, mark_without_text, touches_scratch};

/// What a step did: its line before its mark, and whether its instruction accessed the scratch page.
#[derive(Clone, Copy)]
struct Unmarked {
    event: Event,
    scratch: bool,
}

impl Unmarked {
    /// A step of no instruction.
    fn of(event: Event) -> Unmarked
        ensures { result.event ≡ event }
    {
        Unmarked {
            event,
            scratch: false,
        }
    }
}

/// A refused access is a fault.
fn stop_thread(state: &mut PlainState, core: u8, stop: BusStop) -> Event
    requires { IsFault stop }
    ensures { StopsWith state.old core stop (result, state.new) }
{
    match stop {
        BusStop::Fault(kind, at) => fault(state, core, kind, at.0),
        BusStop::Missing(_) => unreachable!(),
    }
}

/// The instruction that was fetched, from these registers, in this view. It works on them in place.
fn execute_next(state: &mut PlainState, core: u8, view: u16, insn: &Insn, regs: &mut Regs) -> Event
    requires { IsValid insn.now }
    ensures { Performs vmfunc_outcome state.old core view insn.now regs.old (result, state.new) }
{
    let rip = regs.rip;
    match perform(state, u32::from(core), view, insn, regs) {
        Ok(Effect::Next) => {
            state.set_regs(core, *regs);
            Event::Step { rip }
        }
        Ok(Effect::Syscall) => system_call(state, core, insn, regs),
        Ok(Effect::Switch) => vmfunc(state, core),
        Ok(Effect::Undefined) => fault(state, core, FaultKind::Undefined, rip),
        Err(stop) => stop_thread(state, core, stop),
    }
}

/// The instruction at RIP of a thread with these registers in this view.
fn run_from(state: &mut PlainState, core: u8, view: u16, regs: &mut Regs) -> Unmarked
    ensures runs { RunsOn vmfunc_outcome state.old core view regs.old (result.event, state.new) }
    ensures scratch { TellsScratch state.old core view regs.old result.scratch }
{
    match fetch_next(state, u32::from(core), view, regs.rip) {
        Ok(insn) => {
            let scratch = touches_scratch(&insn, regs);
            let event = execute_next(state, core, view, &insn, regs);
            Unmarked { event, scratch }
        }
        Err(stop) => Unmarked::of(stop_thread(state, core, stop)),
    }
}

/// The step of a thread that runs: its flight goes on, or it executes an instruction.
fn go_on(state: &mut PlainState, core: u8) -> Unmarked
    ensures step { GoesOn state.old core (thread_at state.old core) (flight_at state.old core) (result.event, state.new) }
    ensures scratch { flight_at state.old core ≡ None
        → TellsScratch state.old core (thread_at state.old core).view (thread_at state.old core).regs result.scratch }
{
    if let Some(flight) = state.flight(core) {
        return Unmarked::of(landing_step(state, core, flight));
    }
    let thread = state.thread(core);
    let view = thread.view;
    let mut regs = thread.regs;
    run_from(state, core, view, &mut regs)
}

/// A step of a core: a thread that has ended is idle.
fn next_event(state: &mut PlainState, core: u8) -> Unmarked
    ensures step { Steps state.old core result.event state.new }
    ensures scratch { (thread_at state.old core).state ≡ EndKind.Running → flight_at state.old core ≡ None
        → TellsScratch state.old core (thread_at state.old core).view (thread_at state.old core).regs result.scratch }
{
    match state.thread(core).state {
        EndKind::Running => go_on(state, core),
        EndKind::Ended(_) | EndKind::Faulted(_, _) => Unmarked::of(Event::Idle),
    }
}

// ---- marks

/// The mark of an instruction that stood at `rip`, of a process by its number, where RIP is `next` behind it.
#[tactic(auto, unfolding(sb_state::specs::State::process_at))]
fn mark_in(state: &PlainState, process: u32, rip: u64, next: u64, scratch: bool) -> Mark
    ensures { result ≡ mark (map_in (process_at state.now process)) rip next scratch }
{
    match state.processes.get(process as usize) {
        Some(process) => process.mark(rip, next, scratch),
        None => mark_without_text(rip, next, scratch),
    }
}

/// The line of a step of a core with its mark, where the view of its thread showed this process.
fn with_mark(state: &PlainState, core: u8, process: u32, step: Unmarked) -> Event
    ensures { result ≡ event_with_mark (map_in (process_at state.now process)) (thread_at state.now core).regs.rip
        step.scratch step.event }
{
    match step.event {
        Event::Step { rip } => {
            let next = state.thread(core).regs.rip;
            line_of_mark(mark_in(state, process, rip, next, step.scratch), rip)
        }
        event => event,
    }
}

impl Plain {
    /// One step of a core: its line, with its mark (docs/MARKS.md). It takes no memory.
    ///
    /// A thread that has ended is idle, and so is a core that has none. A system call that is refused leaves all but RIP, RAX,
    /// RCX, RDX and R11 of its thread. From a sound state, as each state of a run is (docs/LAWS.md), a step is one of the
    /// machine that calls in one step, or has a landing line and changes flights alone; and VMFUNC's bytes may be fetched at
    /// one address alone.
    pub fn step(&mut self, core: u8) -> Line
        ensures core { result.core ≡ core }
        ensures step { StepsWithMark self.old core result.event self.new }
        ensures count { length self.new.threads ≡ length self.old.threads }
        ensures at_once { IsSound self.old → StepsAlikeWithMark self.old core result.event self.new }
        ensures refused { IsRefusedCall result.event → LeavesAll self.old self.new core }
        ensures changes { StepChanges self.old core result.event self.new }
        ensures one_switch { IsSound self.old → HasOneSwitch self.new }
        ensures sound { IsSound self.old → IsSound self.new }
    {
        let process = process_now(self.state.thread(core));
        let step = next_event(&mut self.state, core);
        let event = with_mark(&self.state, core, process, step);
        Line { core, event }
    }
}
