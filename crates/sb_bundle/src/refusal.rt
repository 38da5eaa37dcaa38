//! Why bytes are no bundle.

ghost use Rattle.std.specs.Prelude.{◌≡◌};
ghost use Rattle.sb_bundle.specs.declared.refusal.BundleRefusal.TheVariants.{Memory};

use std::alloc::{AllocError, AllocFailed};
use thiserror::Error;

/// Why bytes are no bundle: the first refusal in the order of fields. `at` is the offset in bytes of the field that is
/// refused. A field that the input does not hold whole is `Short`, whatever its bytes are.
#[derive(Clone, Copy, Debug, PartialEq, Eq, Error)]
pub enum BundleRefusal {
    /// The input ends before the field that begins at `at` does.
    #[error("the input ends within the field at {at}")]
    Short { at: u64 },
    /// The first four bytes are not "SKYB".
    #[error("no magic bytes at {at}")]
    Magic { at: u64 },
    /// The version is not 1.
    #[error("an unknown version at {at}")]
    Version { at: u64 },
    /// A count of the header is outside its limits.
    #[error("the count at {at} is outside its limits")]
    Count { at: u64 },
    /// A number behind the header is outside its limits: a length, the heap pages, a process or a core.
    #[error("the number at {at} is outside its limits")]
    Range { at: u64 },
    /// Bytes stand behind the schedule, the first of them at `at`.
    #[error("bytes stand behind the schedule from {at} on")]
    Trailing { at: u64 },
    /// Memory ran out, which says nothing of the bytes.
    #[error("out of memory")]
    Memory,
}

impl From<AllocError> for BundleRefusal {
    ghost from_gives = { λ _ e. e ≡ Memory };

    fn from(_e: AllocError) -> BundleRefusal {
        BundleRefusal::Memory
    }
}

impl<T: Drop> From<AllocFailed<T>> for BundleRefusal {
    ghost from_gives = { λ _ e. e ≡ Memory };

    fn from(_e: AllocFailed<T>) -> BundleRefusal {
        BundleRefusal::Memory
    }
}
