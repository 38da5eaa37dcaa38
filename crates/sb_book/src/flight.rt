//! Flights in the steps of a core.

ghost use Rattle.std.specs.Prelude.{◌≡◌, false};
ghost use Rattle.sb_block.specs.Run.{events_of};
ghost use Rattle.sb_book.specs.Undecided.{begins_flight, decides_call, undecided_after};

use sb_abi::VMFUNC_PHASE;
use sb_block::MadeStep;
use sb_trace::Event;

/// Whether a flight begins with the line.
fn begins_flight(event: Event) -> bool
    ensures { result ≡ begins_flight event }
{
    match event {
        Event::Landing { phase } => phase == VMFUNC_PHASE,
        Event::Step { .. }
        | Event::Extra { .. }
        | Event::Stray { .. }
        | Event::Printed { .. }
        | Event::Sys { .. }
        | Event::Exit { .. }
        | Event::Fault { .. }
        | Event::ServerFault { .. }
        | Event::ServerExit { .. }
        | Event::Entered { .. }
        | Event::WrongKey { .. }
        | Event::PoolEmpty { .. }
        | Event::Unbound { .. }
        | Event::BadLeaf { .. }
        | Event::Return
        | Event::Turn
        | Event::Idle => false,
    }
}

/// Whether a call is decided at the line.
fn decides_call(event: Event) -> bool
    ensures { result ≡ decides_call event }
{
    match event {
        Event::Entered { .. } | Event::WrongKey { .. } | Event::PoolEmpty { .. } => true,
        Event::Step { .. }
        | Event::Extra { .. }
        | Event::Stray { .. }
        | Event::Printed { .. }
        | Event::Sys { .. }
        | Event::Exit { .. }
        | Event::Fault { .. }
        | Event::ServerFault { .. }
        | Event::ServerExit { .. }
        | Event::Unbound { .. }
        | Event::BadLeaf { .. }
        | Event::Return
        | Event::Turn
        | Event::Landing { .. }
        | Event::Idle => false,
    }
}

/// Whether a flight begins among the steps that is not decided behind them.
pub fn leaves_undecided(steps: &[MadeStep]) -> bool
    ensures { result ≡ undecided_after false (events_of steps.now) }
{
    let mut undecided = false;
    for step in steps {
        undecided = begins_flight(step.event) || (undecided && !decides_call(step.event));
    }
    undecided
}
