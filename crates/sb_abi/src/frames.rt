//! How many frames of memory a thing takes (docs/FORMATS.md, "Loading").

/// The frames below the first that the frame book gives: what the kernels keep.
pub const KEPT_FRAMES: u32 = 512;

/// The frames of a memory at least: one more than what the kernels keep.
pub const MIN_FRAMES: u32 = KEPT_FRAMES + 1;

/// The frames of a memory at most, which are 32 MiB.
pub const MAX_FRAMES: u32 = 8192;

/// The frames of a process beside its pages: eleven tables, and the pool page.
pub const PROCESS_FRAMES: u32 = 12;

/// The frames of a thread: its home view, its list, its save page and its stack.
pub const THREAD_FRAMES: u32 = 12;

/// The frames of a view: four tables, a record page and a scratch page.
pub const VIEW_FRAMES: u32 = 6;

/// The frames of a binding: a view, and four pages of a buffer.
pub const BIND_FRAMES: u32 = 10;
