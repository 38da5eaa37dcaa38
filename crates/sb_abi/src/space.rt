//! The windows of linear addresses (docs/FORMATS.md, "The memory of a thread").
//!
//! A window begins at an address, in bytes, and at the page of that address. Each has 512 pages, which are 2 MiB, but the
//! rewrite area, which has 16, and the window of buffers, which has 2048.

/// The pages of each window but the rewrite area's and that of buffers.
pub const WINDOW_PAGES: u64 = 512;

/// The bytes of such a window.
pub const WINDOW_BYTES: u64 = 0x20_0000;

/// The threads that the windows have room for.
pub const WINDOW_THREADS: u64 = 32;

/// The threads that a machine starts with at most, and those that the page tables serve: their buffers fill the first 2 MiB
/// of the window of buffers.
pub const MAX_THREADS: u64 = 8;

/// The processes of a machine at most: each has a root of page tables.
pub const MAX_PROCESSES: u64 = 16;

/// The views of a thread at most: its home view, and one for each binding.
pub const MAX_VIEWS: u64 = 16;

/// The rewrite area: where rewritten instructions are moved to.
pub const AREA_ADDRESS: u64 = 0x1000;

/// The first page of the rewrite area.
pub const AREA_PAGE: u64 = 0x1;

/// The pages of the rewrite area at most.
pub const AREA_PAGES: u64 = 16;

/// The text.
pub const TEXT_ADDRESS: u64 = 0x40_0000;

/// The first page of the text.
pub const TEXT_PAGE: u64 = 0x400;

/// The initial data.
pub const DATA_ADDRESS: u64 = 0x80_0000;

/// The first page of the initial data.
pub const DATA_PAGE: u64 = 0x800;

/// The heap.
pub const HEAP_ADDRESS: u64 = 0xC0_0000;

/// The first page of the heap.
pub const HEAP_PAGE: u64 = 0xC00;

/// The buffers of bindings, by thread and index.
pub const BUFFERS_ADDRESS: u64 = 0x200_0000;

/// The first page of the buffers.
pub const BUFFERS_PAGE: u64 = 0x2000;

/// The pages of a buffer.
pub const BUFFER_PAGES: u64 = 4;

/// From a buffer to the next one, in bytes.
pub const BUFFER_DISTANCE: u64 = 0x4000;

/// The buffers of a thread: one for each index, of which 0 is not used.
pub const BUFFERS_PER_THREAD: u64 = 16;

/// The pages of the buffers of a thread.
pub const BUFFERS_DISTANCE_PAGES: u64 = BUFFERS_PER_THREAD * BUFFER_PAGES;

/// The pages of the window of buffers.
pub const BUFFERS_WINDOW_PAGES: u64 = WINDOW_THREADS * BUFFERS_DISTANCE_PAGES;

/// The save pages and stacks of threads.
pub const STACKS_ADDRESS: u64 = 0x300_0000;

/// The first page of the save pages and stacks.
pub const STACKS_PAGE: u64 = 0x3000;

/// From the save page of a thread to the next one's, in bytes. Its stack is the second half.
pub const THREAD_DISTANCE: u64 = 0x8000;

/// The pages from the save page of a thread to the next one's.
pub const THREAD_PAGES: u64 = 8;

/// The stacks of a server.
pub const SERVER_STACKS_ADDRESS: u64 = 0x400_0000;

/// The first page of the stacks of a server.
pub const SERVER_STACKS_PAGE: u64 = 0x4000;

/// The pages of a stack, of a thread or of a server.
pub const STACK_PAGES: u64 = 4;

/// From a server stack to the next one, in bytes.
pub const STACK_DISTANCE: u64 = 0x4000;

/// Where the top word of a stack's last page lies in that page, in bytes.
pub const TOP_WORD: u64 = 0xFF8;

/// The top word of the first server stack.
pub const FIRST_STACK_TOP: u64 = 0x400_3FF8;

/// The stacks of a server at most.
pub const MAX_STACKS: u64 = 16;

/// The bindings of a thread at most: indices 1 to 15.
pub const MAX_BINDINGS: usize = 15;
