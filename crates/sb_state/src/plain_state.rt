//! The state of the plain machine.

ghost use Rattle.std.specs.Prelude.{◌≡◌, ◌<◌, ◌≤◌, ◌^◌, length};

use crate::process::Process;
use crate::state::{Flight, Thread};
use sb_pages::Pages;
use sb_tramp::KeyWords;
use std::marker::Model;

/// All that the plain machine is. To contracts it is the state of the definitions.
///
/// There is room for a page for each free frame, so no step takes memory. A core that has no thread has one that has ended.
#[derive(Drop)]
pub struct PlainState {
    pub pages: Pages,
    pub processes: Vec<Process>,
    pub threads: Vec<Thread>,
    /// What stands in place of a thread that is not there.
    pub absent: Thread,
    /// The flight of each thread, where it is in flight.
    pub flights: Vec<Option<Flight>>,
    /// The number of free frames.
    pub free: u32,
    /// The key words that are left.
    pub keys: KeyWords,
}

impl Model for PlainState {
    ghost use Rattle.std.specs.Prelude.{◌≡◌, ◌<◌, ◌≤◌, ◌^◌, length};
    ghost use Rattle.sb_state.specs.State.{State, no_thread};

    ghost Value = { State };

    ghost view = { λ state. record {
      pages = state.pages.pages;
      processes = state.processes.items;
      threads = state.threads.items;
      flights = state.flights.items;
      free = state.free;
      keys = state.keys;
    } };

    ghost invariant = { λ state. (state.free ≤ state.pages.room) × (length state.processes.items < 2 ^ 32)
        × (state.absent ≡ no_thread) };
}
