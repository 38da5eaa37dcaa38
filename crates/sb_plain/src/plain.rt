//! The plain machine.

ghost use Rattle.std.specs.Prelude.{◌≡◌, ◌↔◌, IsFalse};
ghost use Rattle.sb_state.specs.State.{thread_at};

use sb_state::{EndKind, PlainState};
use std::marker::Model;

/// The plain machine: a state, and steps of it. To contracts it is the state of the definitions.
#[derive(Drop)]
pub struct Plain {
    pub(crate) state: PlainState,
}

impl Model for Plain {
    ghost use Rattle.sb_state.specs.State.{State};

    ghost Value = { State };

    ghost view = { λ plain. plain.state };
}

impl Plain {
    /// Lends the state, whose pages can be read.
    pub fn state(&self) -> &PlainState
        ensures { result.now ≡ self.now }
    {
        &self.state
    }

    /// Whether the thread of a core has ended, by itself or by a fault. A core that has none is one whose thread has ended.
    pub fn ended(&self, core: u8) -> bool
        ensures { IsFalse result ↔ ((thread_at self.now core).state ≡ EndKind.Running) }
    {
        !matches!(self.state.thread(core).state, EndKind::Running)
    }
}
