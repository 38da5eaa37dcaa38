//! Why a text has no listing, and why it cannot be rewritten.

ghost use Rattle.std.specs.Prelude.{◌≡◌};
ghost use Rattle.sb_rewrite.specs.declared.refusal.ListRefusal.TheVariants as list;
ghost use Rattle.sb_rewrite.specs.declared.refusal.RewriteRefusal.TheVariants as rewrite;
ghost use Rattle.sb_rewrite.specs.Refusals.{of_listing};

use std::alloc::{AllocError, AllocFailed};
use thiserror::Error;

/// Why a text has no listing.
#[derive(Clone, Copy, Debug, PartialEq, Eq, Error)]
pub enum ListRefusal {
    /// At this address, behind whole instructions, no whole instruction stands.
    #[error("no whole instruction stands at {at:x}")]
    Undecoded { at: u64 },
    /// Memory ran out, which says nothing of the text.
    #[error("out of memory")]
    Memory,
}

/// Why a text cannot be rewritten. Of several causes the first in this order is named, at its first address.
#[derive(Clone, Copy, Debug, PartialEq, Eq, Error)]
pub enum RewriteRefusal {
    /// At this address, behind whole instructions, no whole instruction stands.
    #[error("no whole instruction stands at {at:x}")]
    Undecoded { at: u64 },
    /// The direct jump or call at this address leads neither to an instruction of the text nor into the trampoline.
    #[error("the jump at {at:x} leads to no instruction")]
    BadTarget { at: u64 },
    /// Nothing can stand in place of the instruction at this address, which holds the bytes of VMFUNC.
    #[error("the instruction at {at:x} cannot be moved")]
    Unmovable { at: u64 },
    /// The slot of the instruction at this address would end behind the rewrite area.
    #[error("no room is left for the slot of the instruction at {at:x}")]
    AreaFull { at: u64 },
    /// Memory ran out, which says nothing of the text.
    #[error("out of memory")]
    Memory,
}

impl From<AllocError> for ListRefusal {
    ghost from_gives = { λ _ e. e ≡ list.Memory };

    fn from(_e: AllocError) -> ListRefusal {
        ListRefusal::Memory
    }
}

impl<T: Drop> From<AllocFailed<T>> for ListRefusal {
    ghost from_gives = { λ _ e. e ≡ list.Memory };

    fn from(_e: AllocFailed<T>) -> ListRefusal {
        ListRefusal::Memory
    }
}

impl From<AllocError> for RewriteRefusal {
    ghost from_gives = { λ _ e. e ≡ rewrite.Memory };

    fn from(_e: AllocError) -> RewriteRefusal {
        RewriteRefusal::Memory
    }
}

impl<T: Drop> From<AllocFailed<T>> for RewriteRefusal {
    ghost from_gives = { λ _ e. e ≡ rewrite.Memory };

    fn from(_e: AllocFailed<T>) -> RewriteRefusal {
        RewriteRefusal::Memory
    }
}

impl From<ListRefusal> for RewriteRefusal {
    ghost from_gives = { λ refusal e. e ≡ of_listing refusal };

    fn from(refusal: ListRefusal) -> RewriteRefusal {
        match refusal {
            ListRefusal::Undecoded { at } => RewriteRefusal::Undecoded { at },
            ListRefusal::Memory => RewriteRefusal::Memory,
        }
    }
}
