//! What guests and the kernels agree on: each number once.
//!
//! Inside: the windows of linear addresses (`space`), the trampoline and the phases of a landing (`trampoline`), system
//! calls with their refusals and the statuses of calls (`call`), how many frames a thing takes (`frames`), and where things
//! lie in physical memory (`layout`). Definitions cite these constants by their names.
//!
//! Not inside: what is done with them, and the size of a page, which stands where memory does (`sb_memory`).
//!
//! ```text
//! sb_abi::VMFUNC_ADDRESS == sb_abi::TRAMPOLINE_ADDRESS + 0x40
//! ```
#![tactic(auto)]

mod call;
mod frames;
mod layout;
mod space;
mod trampoline;

pub use call::{Call, CallRefusal, CallStatus};
pub use frames::{
    BIND_FRAMES, KEPT_FRAMES, MAX_FRAMES, MIN_FRAMES, PROCESS_FRAMES, THREAD_FRAMES, VIEW_FRAMES,
};
pub use layout::{
    BASE_DIRECTORY, BASE_POINTERS, BASE_ROOT, FIRST_REGION_TABLE, FIRST_ROOT,
    HOME_TRAMPOLINE_FRAME, LAST_ROOT, RECORD_GUEST_PAGE, SCRATCH_GUEST_PAGE,
    SERVER_TRAMPOLINE_FRAME, TRAMPOLINE_GUEST_PAGE,
};
pub use space::{
    AREA_ADDRESS, AREA_PAGE, AREA_PAGES, BUFFER_DISTANCE, BUFFER_PAGES, BUFFERS_ADDRESS,
    BUFFERS_DISTANCE_PAGES, BUFFERS_PAGE, BUFFERS_PER_THREAD, BUFFERS_WINDOW_PAGES, DATA_ADDRESS,
    DATA_PAGE, FIRST_STACK_TOP, HEAP_ADDRESS, HEAP_PAGE, MAX_BINDINGS, MAX_PROCESSES, MAX_STACKS,
    MAX_THREADS, MAX_VIEWS, SERVER_STACKS_ADDRESS, SERVER_STACKS_PAGE, STACK_DISTANCE, STACK_PAGES,
    STACKS_ADDRESS, STACKS_PAGE, TEXT_ADDRESS, TEXT_PAGE, THREAD_DISTANCE, THREAD_PAGES, TOP_WORD,
    WINDOW_BYTES, WINDOW_PAGES, WINDOW_THREADS,
};
pub use trampoline::{
    ADD_OFFSET, BRANCH_ON_EXCHANGE, BRANCH_ON_KEY, BRANCH_ON_POOL, CLEAR_INDEX, CLEAR_MASK,
    CLEAR_OFFSET, COMPARE_KEY, DROP_BIT, ENTER, EXCHANGE_POOL, EXIT_STUB, FIND_STACK, GO_HOME,
    HOME_INDEX, HOME_LEAF, JUMP_BACK, LEAVE, LESS_ONE, LOAD_BASE, LOAD_POOL, POOL_ADDRESS,
    POOL_PAGE, RECORD_ADDRESS, RECORD_PAGE, RETURN_ADDRESS, SCRATCH_ADDRESS, SCRATCH_PAGE, SKIP,
    STACK_OFFSET, STATUS_POOL_EMPTY, STATUS_WRONG_KEY, TEST_MASK, TRAMPOLINE_ADDRESS,
    TRAMPOLINE_PAGE, VMFUNC_ADDRESS, VMFUNC_PHASE,
};
