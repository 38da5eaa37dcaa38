//! A step of the machine.

ghost use Rattle.std.specs.Prelude.{◌≡◌, ◌<◌, length};
ghost use Rattle.sb_insn.specs.Grammar.{IsValid};
ghost use Rattle.sb_trace.specs.Faults.{IsFault};
ghost use Rattle.sb_trace.specs.State.{State};
ghost use Rattle.sb_trace.specs.Marks.{event_with_mark};
ghost use Rattle.sb_machine.specs.Machine.{core_at, state_at};
ghost use Rattle.sb_machine.specs.Marks.{StepsWithMark, TellsScratch, map_shown};
ghost use Rattle.sb_machine.specs.Outcomes.{with_line};
ghost use Rattle.sb_machine.specs.StandsFor.{IsMachineOf};
ghost use Rattle.sb_machine.specs.Written.{Performs, RunsOn, StopsWith, Works};

use crate::instruction::{fetch_next, perform};
use crate::laws::steps_are_plain;
use crate::outcome::{fault, go_on};
use crate::parts::Parts;
use crate::processor::CoreState;
use crate::system_call::system_call;
use crate::vmfunc::vmfunc;
use sb_bus::{BusStop, FaultKind};
use sb_exec::Effect;
use sb_insn::Insn;
use sb_state::EndKind;
use sb_trace::{Event, line_of_mark, touches_scratch};

/// What a step did: its line before its mark, and whether its instruction accessed the scratch page.
#[derive(Clone, Copy)]
struct Unmarked {
    event: Event,
    scratch: bool,
}

impl Unmarked {
    /// A step of no instruction.
    fn of(event: Event) -> Unmarked
        ensures { result.event ≡ event }
    {
        Unmarked {
            event,
            scratch: false,
        }
    }
}

/// A refused access is a fault.
fn stop_thread(parts: &mut Parts, number: u8, stop: BusStop) -> Event
    requires there { number < length parts.old.cores }
    requires stands { (state : State) × IsMachineOf parts.old state }
    requires fault { IsFault stop }
    ensures { StopsWith parts.old number stop (result, parts.new) }
{
    match stop {
        BusStop::Fault(kind, at) => fault(parts, number, kind, at.0),
        BusStop::Missing(_) => unreachable!(),
    }
}

/// The instruction that was fetched.
fn execute_next(parts: &mut Parts, number: u8, insn: &Insn) -> Event
    requires there { number < length parts.old.cores }
    requires stands { (state : State) × IsMachineOf parts.old state }
    requires valid { IsValid insn.now }
    ensures { Performs parts.old number insn.now (result, parts.new) }
{
    let state = parts.core(number).state;
    let mut regs = state.regs;
    match perform(parts, number, insn, &mut regs) {
        Ok(Effect::Next) => go_on(parts, number, regs),
        Ok(Effect::Syscall) => system_call(parts, number, insn),
        Ok(Effect::Switch) => vmfunc(parts, number, insn),
        Ok(Effect::Undefined) => fault(parts, number, FaultKind::Undefined, state.regs.rip),
        Err(stop) => stop_thread(parts, number, stop),
    }
}

/// The step of a core whose thread runs.
fn run(parts: &mut Parts, number: u8) -> Unmarked
    requires there { number < length parts.old.cores }
    requires stands { (state : State) × IsMachineOf parts.old state }
    ensures runs { RunsOn parts.old number (result.event, parts.new) }
    ensures scratch { TellsScratch parts.old number result.scratch }
{
    match fetch_next(parts, number) {
        Ok(insn) => {
            let scratch = touches_scratch(&insn, &parts.core(number).state.regs);
            let event = execute_next(parts, number, &insn);
            Unmarked { event, scratch }
        }
        Err(stop) => Unmarked::of(stop_thread(parts, number, stop)),
    }
}

/// A step of a core, before its line is counted.
fn work(parts: &mut Parts, number: u8) -> Unmarked
    requires there { number < length parts.old.cores }
    requires stands { (state : State) × IsMachineOf parts.old state }
    ensures works { Works parts.old number result.event parts.new }
    ensures scratch { (core_at parts.old number).end ≡ EndKind.Running → TellsScratch parts.old number result.scratch }
{
    match parts.core(number).end {
        EndKind::Running => run(parts, number),
        EndKind::Ended(_) | EndKind::Faulted(_, _) => Unmarked::of(Event::Idle),
    }
}

/// The core has made one line more.
fn count_line(parts: &mut Parts, number: u8)
    requires { number < length parts.old.cores }
    ensures { parts.new ≡ with_line parts.old number }
{
    let state = parts.core(number).state;
    let made = state.made.wrapping_add(1);
    parts.set_state(number, CoreState { made, ..state });
}

/// The line of a step of a core with its mark, where the core was in this view.
fn with_mark(parts: &Parts, number: u8, view: u16, step: Unmarked) -> Event
    requires core { number < length parts.now.cores }
    requires seat { number < length parts.now.kernel.seats }
    ensures { result ≡ event_with_mark (map_shown parts.now number view) (state_at parts.now number).regs.rip
        step.scratch step.event }
{
    match step.event {
        Event::Step { rip } => {
            let next = parts.core(number).state.regs.rip;
            let mark = parts.kernel.mark(number, view, rip, next, step.scratch);
            line_of_mark(mark, rip)
        }
        event => event,
    }
}

/// A step of a core: its line, with its mark.
pub fn step(parts: &mut Parts, number: u8) -> Event
    requires there { number < length parts.old.cores }
    requires stands { (state : State) × IsMachineOf parts.old state }
    ensures { StepsWithMark parts.old number result parts.new }
{
    steps_are_plain();
    let view = parts.core(number).state.view;
    let made = work(parts, number);
    count_line(parts, number);
    with_mark(parts, number, view, made)
}
