//! Whether a thread goes on, and if not, why.

use sb_bus::FaultKind;
use std::fmt;

/// Whether a thread goes on.
#[derive(Clone, Copy, Debug, PartialEq, Eq)]
pub enum EndKind {
    Running,
    /// It ended itself, with this status.
    Ended(u64),
    /// A fault ended it, at this address.
    Faulted(FaultKind, u64),
}

impl fmt::Display for EndKind {
    ghost use Rattle.std.specs.Prelude.{Some};
    ghost use Rattle.sb_state.specs.EndText.{state_text};

    ghost output = { λ state. Some (state_text state) };

    fn fmt<W: fmt::Write>(&self, f: &mut fmt::Formatter<W>) -> fmt::Result {
        match self {
            EndKind::Running => write!(f, "running"),
            EndKind::Ended(status) => write!(f, "ended {status}"),
            EndKind::Faulted(kind, at) => write!(f, "faulted {kind} {at:x}"),
        }
    }
}
