//! The thread that a core runs: the one of its number. Where there is none, it is one that has ended, and no call changes it.

ghost use Rattle.std.specs.Prelude.{◌≡◌, ◌<◌, ◌++◌, ◌∷◌, [], length};
ghost use Rattle.sb_abi.specs.declared.space.TheConstants.{MAX_BINDINGS};
ghost use Rattle.sb_state.specs.State.{no_thread, thread_at, with_thread, with_regs, with_end, with_view, flight_at, with_flight};

use crate::bindings::Bindings;
use crate::end_kind::EndKind;
use crate::plain_state::PlainState;
use crate::state::{Binding, Flight, Thread};
use sb_insn::{Flags, Regs};

/// What stands in place of a thread that is not there: one that has ended.
#[tactic(auto, unfolding(crate::specs::State::no_thread))]
pub fn no_thread() -> Thread
    ensures { result ≡ no_thread }
{
    Thread {
        home: 0,
        regs: Regs {
            general: [0; 16],
            rip: 0,
            flags: Flags::CLEAR,
        },
        view: 0,
        bindings: Bindings::new(),
        state: EndKind::Ended(0),
    }
}

impl PlainState {
    /// The thread of a core.
    #[tactic(auto, unfolding(crate::specs::State::thread_at))]
    pub fn thread(&self, core: u8) -> &Thread
        ensures { result.now ≡ thread_at self.now core }
    {
        match self.threads.get(usize::from(core)) {
            Some(thread) => thread,
            None => &self.absent,
        }
    }

    /// Gives the thread of a core these registers.
    #[tactic(auto, unfolding(crate::specs::State::thread_at, crate::specs::State::with_regs))]
    pub fn set_regs(&mut self, core: u8, regs: Regs)
        ensures { self.new ≡ with_regs self.old core regs }
    {
        if usize::from(core) < self.threads.len() {
            self.threads[usize::from(core)].regs = regs;
        }
    }

    /// Ends the thread of a core.
    #[tactic(auto, unfolding(crate::specs::State::thread_at, crate::specs::State::with_end))]
    pub fn set_end(&mut self, core: u8, end: EndKind)
        ensures { self.new ≡ with_end self.old core end }
    {
        if usize::from(core) < self.threads.len() {
            self.threads[usize::from(core)].state = end;
        }
    }

    /// Puts the thread of a core into a view, with these registers.
    #[tactic(auto, unfolding(crate::specs::State::thread_at, crate::specs::State::with_view))]
    pub fn set_view(&mut self, core: u8, view: u16, regs: Regs)
        ensures { self.new ≡ with_view self.old core view regs }
    {
        if usize::from(core) < self.threads.len() {
            let thread = &mut self.threads[usize::from(core)];
            thread.view = view;
            thread.regs = regs;
        }
    }

    /// The flight of the thread with this number, where it is in flight.
    #[tactic(auto, unfolding(crate::specs::State::flight_at))]
    pub fn flight_at(&self, number: usize) -> Option<Flight>
        ensures { result ≡ flight_at self.now number }
    {
        *self.flights.get(number)?
    }

    /// The flight of the thread of a core, where it is in flight.
    pub fn flight(&self, core: u8) -> Option<Flight>
        ensures { result ≡ flight_at self.now core }
    {
        self.flight_at(usize::from(core))
    }

    /// Puts the thread of a core into a flight, or into none.
    #[tactic(auto, unfolding(crate::specs::State::with_flight))]
    pub fn set_flight(&mut self, core: u8, flight: Option<Flight>)
        ensures set { self.new ≡ with_flight self.old core flight }
        ensures threads { self.new.threads ≡ self.old.threads }
    {
        if let Some(place) = self.flights.get_mut(usize::from(core)) {
            *place = flight;
        }
    }

    /// Gives the thread of a core a binding behind its others.
    #[tactic(auto, unfolding(crate::specs::State::thread_at))]
    pub fn push_binding(&mut self, core: u8, binding: Binding)
        requires { length (thread_at self.old core).bindings < MAX_BINDINGS }
        ensures { self.new ≡ with_thread self.old core
            (record (thread_at self.old core) { bindings = (thread_at self.old core).bindings ++ binding ∷ [] }) }
    {
        if usize::from(core) < self.threads.len() {
            self.threads[usize::from(core)].bindings.push(binding);
        }
    }
}
