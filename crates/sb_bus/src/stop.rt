//! What stops an access.

use sb_memory::{Frame, Linear};
use std::fmt;
use thiserror::Error;

/// The kinds of fault.
#[derive(Clone, Copy, Debug, PartialEq, Eq)]
pub enum FaultKind {
    /// Bits 63 to 47 of the address are not equal (SDM volume 1, section 3.3.7.1).
    Canon,
    /// Any other access that memory refuses.
    Memory,
    /// No instruction, or UD2.
    Undefined,
    /// A refused VMFUNC.
    Switch,
}

impl fmt::Display for FaultKind {
    ghost use Rattle.std.specs.Prelude.{Some};
    ghost use Rattle.sb_bus.specs.Stop.{fault_kind_text};

    ghost output = { λ kind. Some (fault_kind_text kind) };

    fn fmt<W: fmt::Write>(&self, f: &mut fmt::Formatter<W>) -> fmt::Result {
        match self {
            FaultKind::Canon => write!(f, "canon"),
            FaultKind::Memory => write!(f, "memory"),
            FaultKind::Undefined => write!(f, "undefined"),
            FaultKind::Switch => write!(f, "switch"),
        }
    }
}

/// Why a byte is not accessed.
#[derive(Clone, Copy, Debug, PartialEq, Eq, Error)]
pub enum BusStop {
    /// A fault at this address.
    #[error("fault {0} at {address:x}", address = .1.0)]
    Fault(FaultKind, Linear),
    /// The access meets a frame that this memory does not have.
    #[error("no frame {number}", number = .0.0)]
    Missing(Frame),
}
