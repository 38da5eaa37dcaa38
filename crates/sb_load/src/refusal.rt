//! Why a bundle is not loaded.

ghost use Rattle.std.specs.Prelude.{◌≡◌};
ghost use Rattle.sb_load.specs.declared.refusal.LoadRefusal.TheVariants.{Memory};

use sb_rewrite::RewriteRefusal;
use std::alloc::{AllocError, AllocFailed};
use std::fmt;
use thiserror::Error;

/// Why a bundle is not loaded. It is shown as the line that a program writes, without its line feed.
#[derive(Clone, Copy, Debug, PartialEq, Eq, Error)]
pub enum LoadRefusal {
    /// The text of this process cannot be rewritten. The cause is not want of memory.
    Process { process: u32, why: RewriteRefusal },
    /// The entry of this core is this address, and no instruction of its process starts there.
    BadEntry { core: u32, at: u64 },
    /// The bundle takes so many frames, and has so many.
    NoFrames { need: u32, have: u32 },
    /// Memory ran out, which says nothing of the bundle.
    Memory,
}

/// Why a text cannot be rewritten, shown as the name of the cause and the address.
#[derive(Drop)]
struct Cause(RewriteRefusal);

impl fmt::Display for Cause {
    ghost use Rattle.std.specs.Prelude.{Some};
    ghost use Rattle.sb_load.specs.RefusalText.{cause_text};

    ghost output = { λ cause. Some (cause_text cause.0) };

    fn fmt<W: fmt::Write>(&self, f: &mut fmt::Formatter<W>) -> fmt::Result {
        match &self.0 {
            RewriteRefusal::Undecoded { at } => write!(f, "Undecoded {at:x}"),
            RewriteRefusal::BadTarget { at } => write!(f, "BadTarget {at:x}"),
            RewriteRefusal::Unmovable { at } => write!(f, "Unmovable {at:x}"),
            RewriteRefusal::AreaFull { at } => write!(f, "AreaFull {at:x}"),
            RewriteRefusal::Memory => write!(f, "Memory"),
        }
    }
}

impl fmt::Display for LoadRefusal {
    ghost use Rattle.std.specs.Prelude.{Some};
    ghost use Rattle.sb_load.specs.RefusalText.{refusal_text};

    ghost output = { λ refusal. Some (refusal_text refusal) };

    fn fmt<W: fmt::Write>(&self, f: &mut fmt::Formatter<W>) -> fmt::Result {
        match self {
            LoadRefusal::Process { process, why } => {
                write!(f, "process {process} {}", Cause(*why))
            }
            LoadRefusal::BadEntry { core, at } => write!(f, "entry {core} {at:x}"),
            LoadRefusal::NoFrames { need, have } => write!(f, "frames {need} {have}"),
            LoadRefusal::Memory => write!(f, "out of memory"),
        }
    }
}

impl From<AllocError> for LoadRefusal {
    ghost from_gives = { λ _ e. e ≡ Memory };

    fn from(_e: AllocError) -> LoadRefusal {
        LoadRefusal::Memory
    }
}

impl<T: Drop> From<AllocFailed<T>> for LoadRefusal {
    ghost from_gives = { λ _ e. e ≡ Memory };

    fn from(_e: AllocFailed<T>) -> LoadRefusal {
        LoadRefusal::Memory
    }
}
