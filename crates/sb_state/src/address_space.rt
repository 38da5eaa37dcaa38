//! Which page a thread sees at each linear address.

ghost use Rattle.std.specs.Prelude.{◌≡◌, ◌<◌, ◌^◌};
ghost use Rattle.std.specs.Option.{option_and_then};
ghost use Rattle.sb_state.specs.Windows.{process_of_view, process_now, process_shown, is_process, stack_name, buffer_name, special_name, name_at};

use crate::state::Thread;
use sb_abi::{
    AREA_PAGE, AREA_PAGES, BUFFER_PAGES, BUFFERS_DISTANCE_PAGES, BUFFERS_PAGE, BUFFERS_PER_THREAD,
    BUFFERS_WINDOW_PAGES, DATA_PAGE, HEAP_PAGE, POOL_PAGE, RECORD_PAGE, SCRATCH_PAGE,
    SERVER_STACKS_PAGE, STACK_PAGES, STACKS_PAGE, TEXT_PAGE, THREAD_PAGES, TRAMPOLINE_PAGE,
    WINDOW_PAGES,
};
use sb_pages::PageName;

// ---- the last pages of the windows

const LAST_AREA: u64 = AREA_PAGE + AREA_PAGES - 1;

const LAST_TEXT: u64 = TEXT_PAGE + WINDOW_PAGES - 1;

const LAST_DATA: u64 = DATA_PAGE + WINDOW_PAGES - 1;

const LAST_HEAP: u64 = HEAP_PAGE + WINDOW_PAGES - 1;

const LAST_BUFFERS: u64 = BUFFERS_PAGE + BUFFERS_WINDOW_PAGES - 1;

const LAST_STACKS: u64 = STACKS_PAGE + WINDOW_PAGES - 1;

const LAST_SERVER_STACKS: u64 = SERVER_STACKS_PAGE + WINDOW_PAGES - 1;

// ---- pages inside of a window, whose numbers have 32 bits

/// The pages from one thread's to the next one's, of which the last half are its stack.
const THREAD: u32 = THREAD_PAGES as u32;
/// The first page of its stack.
const STACK: u32 = (THREAD_PAGES - STACK_PAGES) as u32;
/// The pages of the buffers of a thread.
const BUFFERS: u32 = BUFFERS_DISTANCE_PAGES as u32;
/// The pages of a buffer.
const BUFFER: u32 = BUFFER_PAGES as u32;
/// The indices of a thread's buffers.
const INDICES: u32 = BUFFERS_PER_THREAD as u32;

/// The process that a thread's view shows.
pub fn process_of_view(view: u32, thread: &Thread) -> Option<u32>
    ensures { result ≡ process_of_view view thread.now }
{
    if view == 0 {
        Some(thread.home)
    } else {
        thread.bindings.find(view).map(|binding| binding.server)
    }
}

/// The process that a thread's present view shows.
pub fn process_now(thread: &Thread) -> u32
    ensures { result ≡ process_now thread.now }
{
    process_of_view(u32::from(thread.view), thread).unwrap_or(thread.home)
}

/// The process that a view of the thread with this number shows.
#[tactic(auto, unfolding(crate::specs::Windows::process_shown))]
pub fn process_shown(threads: &[Thread], thread: u32, view: u32) -> Option<u32>
    ensures { result ≡ process_shown threads.now thread view }
{
    process_of_view(view, threads.get(thread as usize)?)
}

/// Whether a view shows this process.
fn shows_process(threads: &[Thread], thread: u32, view: u32, process: u32) -> bool
    ensures { result ≡ is_process (process_shown threads.now thread view) process }
{
    match process_shown(threads, thread, view) {
        Some(one) => one == process,
        None => false,
    }
}

/// The name in the window of stacks: eight pages a thread, of which the first is its save page and the last four are its
/// stack. A process has those of the threads at home in it.
fn stack_name(threads: &[Thread], process: u32, page: u32) -> Option<PageName>
    ensures { result ≡ stack_name threads.now process page }
{
    let (thread, number) = (page / THREAD, page % THREAD);
    if !shows_process(threads, thread, 0, process) {
        return None;
    }
    match number {
        0 => Some(PageName::Save(thread)),
        STACK.. => Some(PageName::Stack(thread, number - STACK)),
        _ => None,
    }
}

/// The name in the window of buffers: four pages a binding, sixteen bindings a thread. A process has those of the threads
/// at home in it, and those of bindings whose server it is.
fn buffer_name(threads: &[Thread], process: u32, page: u32) -> Option<PageName>
    ensures { result ≡ buffer_name threads.now process page }
{
    let (thread, index) = (page / BUFFERS, page / BUFFER % INDICES);
    if shows_process(threads, thread, 0, process)
        || shows_process(threads, thread, index, process)
    {
        Some(PageName::Buffer(thread, index, page % BUFFER))
    } else {
        None
    }
}

/// The name of a special page: trampoline, record and scratch page of the view, and pool page of the process.
fn special_name(thread: u32, view: u32, process: u32, page: u64) -> Option<PageName>
    ensures { result ≡ special_name thread view process page }
{
    match page {
        TRAMPOLINE_PAGE if view == 0 => Some(PageName::HomeTrampoline),
        TRAMPOLINE_PAGE => Some(PageName::ServerTrampoline),
        RECORD_PAGE => Some(PageName::Record(thread, view)),
        SCRATCH_PAGE => Some(PageName::Scratch(thread, view)),
        POOL_PAGE => Some(PageName::Pool(process)),
        _ => None,
    }
}

/// The name at a page number, where the view of the thread shows this process.
#[tactic(auto, unfolding(crate::specs::Windows::name_at))]
fn name_at(threads: &[Thread], thread: u32, view: u32, page: u64, process: u32) -> Option<PageName>
    requires { page < 2 ^ 52 }
    ensures { result ≡ name_at threads.now thread view page process }
{
    match page {
        AREA_PAGE..=LAST_AREA => Some(PageName::Area(process, (page - AREA_PAGE) as u32)),
        TEXT_PAGE..=LAST_TEXT => Some(PageName::Text(process, (page - TEXT_PAGE) as u32)),
        DATA_PAGE..=LAST_DATA => Some(PageName::Data(process, (page - DATA_PAGE) as u32)),
        HEAP_PAGE..=LAST_HEAP => Some(PageName::Heap(process, (page - HEAP_PAGE) as u32)),
        BUFFERS_PAGE..=LAST_BUFFERS => {
            buffer_name(threads, process, (page - BUFFERS_PAGE) as u32)
        },
        STACKS_PAGE..=LAST_STACKS => stack_name(threads, process, (page - STACKS_PAGE) as u32),
        SERVER_STACKS_PAGE..=LAST_SERVER_STACKS => {
            Some(PageName::ServerStack(process, (page - SERVER_STACKS_PAGE) as u32))
        },
        _ => special_name(thread, view, process, page),
    }
}

/// The name at a page number in a view of a thread.
pub fn name_for(threads: &[Thread], thread: u32, view: u32, page: u64) -> Option<PageName>
    requires { page < 2 ^ 52 }
    ensures { result ≡ option_and_then (name_at threads.now thread view page) (process_shown threads.now thread view) }
{
    name_at(
        threads,
        thread,
        view,
        page,
        process_shown(threads, thread, view)?,
    )
}
