//! What stops a walk.

use sb_memory::{EptStop, Frame};
use thiserror::Error;

/// Why an entry of a table cannot be read.
#[derive(Clone, Copy, Debug, PartialEq, Eq, Error)]
pub enum TableStop {
    /// The EPT gives no physical address for the entry's place.
    #[error("{0}")]
    Ept(EptStop),
    /// This memory does not have the frame of the entry.
    #[error("no frame {number}", number = .0.0)]
    Missing(Frame),
}

/// Why a linear address has no guest-physical one.
#[derive(Clone, Copy, Debug, PartialEq, Eq, Error)]
pub enum WalkStop {
    /// Bits 63 to 47 of the address are not all the same.
    #[error("the address is not canonical")]
    NonCanonical,
    /// An entry cannot be read.
    #[error("{0}")]
    Table(TableStop),
    /// An entry is not present.
    #[error("not present at level {level}")]
    NotPresent { level: u8 },
    /// An entry maps a large page, which this machine does not have.
    #[error("a large page at level {level}")]
    Large { level: u8 },
    /// An entry does not permit this access.
    #[error("the access is not permitted at level {level}")]
    Denied { level: u8 },
}

/// Why a linear address has no physical one.
#[derive(Clone, Copy, Debug, PartialEq, Eq, Error)]
pub enum NestedStop {
    /// The walk through the guest's page tables is refused.
    #[error("{0}")]
    Walk(WalkStop),
    /// The EPT refuses the address to which that walk leads.
    #[error("{0}")]
    Page(EptStop),
}
