//! The limits of a bundle's fields.

ghost use Rattle.std.specs.Prelude.{◌≡◌};
ghost use Rattle.sb_bundle.specs.Fields.{is_within};

use sb_abi::{MAX_FRAMES, MAX_PROCESSES, MAX_THREADS, MIN_FRAMES, WINDOW_BYTES, WINDOW_PAGES};

/// The least and the greatest number that a field may have.
#[derive(Clone, Copy, Debug, PartialEq, Eq)]
pub struct Limits {
    /// The least that is allowed.
    pub least: u32,
    /// The greatest that is allowed.
    pub most: u32,
}

impl Limits {
    /// Is the number within the limits?
    pub fn allow(&self, number: u32) -> bool
        ensures { result ≡ is_within self.now number }
    {
        self.least <= number && number <= self.most
    }
}

/// How many cores, each with one thread.
pub const CORES: Limits = Limits {
    least: 1,
    most: MAX_THREADS as u32,
};
/// How many processes.
pub const PROCESSES: Limits = Limits {
    least: 1,
    most: MAX_PROCESSES as u32,
};
/// How many frames of 4,096 bytes: the kernels' 512 and at least one more.
pub const FRAMES: Limits = Limits {
    least: MIN_FRAMES,
    most: MAX_FRAMES,
};
/// How many key words.
pub const KEYS: Limits = Limits {
    least: 0,
    most: 128,
};
/// How many entries in the schedule.
pub const SCHEDULE: Limits = Limits {
    least: 0,
    most: 1_048_576,
};
/// How many bytes in a text.
pub const TEXT: Limits = Limits {
    least: 1,
    most: WINDOW_BYTES as u32,
};
/// How many bytes of initial data in a process.
pub const INITIAL: Limits = Limits {
    least: 0,
    most: WINDOW_BYTES as u32,
};
/// How many heap pages of 4,096 bytes in a process.
pub const HEAP: Limits = Limits {
    least: 0,
    most: WINDOW_PAGES as u32,
};
