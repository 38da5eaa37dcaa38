//! Where things lie in physical memory, as frame numbers, and in guest-physical memory, as page numbers (docs/LAYOUT.md).

/// The frame of the trampoline page of home views.
pub const HOME_TRAMPOLINE_FRAME: u32 = 1;

/// The frame of the trampoline page of servers' views.
pub const SERVER_TRAMPOLINE_FRAME: u32 = 4;

/// The base EPT's table of level 4.
pub const BASE_ROOT: u32 = 5;

/// The base EPT's table of level 3.
pub const BASE_POINTERS: u32 = 6;

/// The base EPT's table of level 2.
pub const BASE_DIRECTORY: u32 = 7;

/// The root of the page tables of process 0; that of process `p` is `p` frames further.
pub const FIRST_ROOT: u32 = 16;

/// The root of the page tables of process 15.
pub const LAST_ROOT: u32 = 31;

/// The first of the base EPT's tables of level 1, each for a region of 2 MiB.
pub const FIRST_REGION_TABLE: u32 = 32;

// ---- guest-physical pages that a view maps to frames of its own

/// The guest-physical page of the trampoline. It is also the frame of the home trampoline page.
pub const TRAMPOLINE_GUEST_PAGE: u32 = 1;

/// The guest-physical page of the view's record.
pub const RECORD_GUEST_PAGE: u32 = 2;

/// The guest-physical page of the view's scratch page.
pub const SCRATCH_GUEST_PAGE: u32 = 3;
