//! The plain machine at the end of a run.

ghost use Rattle.std.specs.Prelude.{◌≡◌, IfOk};
ghost use Rattle.sb_trace.specs.End.{thread_end, thread_ends, end_of};

use crate::plain::Plain;
use sb_state::{Flight, PlainState, Thread, process_now};
use sb_trace::{EndState, ThreadEnd, ThreadEnds};
use std::alloc::{AllocError, Global};

fn thread_end(thread: &Thread, flight: Option<Flight>) -> ThreadEnd
    ensures { result ≡ thread_end thread.now flight }
{
    ThreadEnd {
        home: thread.home,
        view: thread.view,
        present: process_now(thread),
        state: thread.state,
        regs: thread.regs,
        flight: flight.map(|flight| flight.phase),
    }
}

fn thread_ends(alloc: Global, state: &PlainState) -> Result<ThreadEnds, AllocError>
    ensures { IfOk result (λ ends. ends ≡ thread_ends state.now 0 state.now.threads) }
{
    let mut ends = Vec::new(alloc);
    for (number, thread) in state.threads.iter().enumerate() {
        ends.push(thread_end(thread, state.flight_at(number)))?;
    }
    Ok(ThreadEnds::new(ends))
}

fn end_of(alloc: Global, state: &PlainState) -> Result<EndState, AllocError>
    ensures { IfOk result (λ end. end ≡ end_of state.now) }
{
    Ok(EndState {
        threads: thread_ends(alloc, state)?,
        free: state.free,
        keys: state.keys.left(),
    })
}

impl Plain {
    /// The state as the report shows it.
    pub fn end(&self, alloc: Global) -> Result<EndState, AllocError>
        ensures { IfOk result (λ end. end ≡ end_of self.now) }
    {
        end_of(alloc, &self.state)
    }
}
