//! The threads of a start.

ghost use Rattle.std.specs.Prelude.{ℕ, ◌≡◌, ◌≢◌, ◌+◌, ◌*◌, ◌<◌, ◌≤◌, false, None};
ghost use Rattle.sb_abi.specs.declared.frames.TheConstants.{THREAD_FRAMES, VIEW_FRAMES};
ghost use Rattle.sb_abi.specs.declared.space.TheConstants.{MAX_PROCESSES, MAX_THREADS, STACK_PAGES};
ghost use Rattle.sb_memory.specs.Physical.{frame_count};
ghost use Rattle.sb_memory.specs.declared.address.Frame.{Frame};
ghost use Rattle.sb_memory.specs.declared.page.TheConstants.{PAGE_SIZE};
ghost use Rattle.sb_frames.specs.Book.{free_count};
ghost use Rattle.sb_root.specs.declared.view.View.{View};
ghost use Rattle.sb_root.specs.Answers.{SameViews};
ghost use Rattle.sb_root.specs.Calls.{IsAddedList, IsAddedView};
ghost use Rattle.sb_root.specs.Root.{eptp_list_frame, view_of};
ghost use Rattle.sb_root.specs.Standing.{IsBooked, Stands};
ghost use Rattle.sb_state.specs.declared.page.PageName.TheVariants.{Stack};
ghost use Rattle.sb_state.specs.State.{State};
ghost use Rattle.sb_state.specs.Start.{home_words, pages_from, save_address};
ghost use Rattle.sb_shows.specs.Placement.{Placement};
ghost use Rattle.sb_shows.specs.Starts.{save_and_stack, stack_page};
ghost use Rattle.sb_shows.specs.Windows.{page_number};
ghost use Rattle.sb_mapping.specs.Taking.{CanTake};
ghost use Rattle.sb_mapping.specs.StartPages.{AddsAll, IsOver};
ghost use Rattle.sb_mapping.specs.StartThreads.{AddedHomeView, AddedThread, HasNoViews, IsReadyForThread, root_frame};

use crate::taking::add_page;
use sb_abi::{FIRST_ROOT, STACK_PAGES, STACKS_ADDRESS, THREAD_DISTANCE};
use sb_frames::FrameBook;
use sb_memory::{Frame, Linear, Memory, PAGE_SIZE};
use sb_pagewalk::TableSet;
use sb_root::RootKernel;
use sb_tramp::RecordWords;

/// The pages of a stack.
const STACK: u32 = STACK_PAGES as u32;

/// The linear address of the save page of a thread.
fn save_address(thread: u8) -> u64
    ensures { result ≡ save_address thread }
{
    STACKS_ADDRESS + u64::from(thread) * THREAD_DISTANCE
}

/// The linear address of a page of the stack of a thread: the stack is the second half of the thread's pages.
#[tactic(auto, unfolding(sb_shows::specs::Windows::page_number))]
fn stack_address(thread: u8, page: u32) -> Linear
    ensures { result.0 ≡ PAGE_SIZE * page_number (Stack thread page) }
{
    Linear(save_address(thread) + THREAD_DISTANCE / 2 + PAGE_SIZE * u64::from(page))
}

/// What the record page of a home view says.
fn home_words(thread: u8, home: u32) -> RecordWords
    ensures { result ≡ home_words thread home }
{
    RecordWords {
        key: 0,
        base: 0,
        handler: 0,
        thread: u64::from(thread),
        save: save_address(thread),
        home: u64::from(home),
    }
}

/// Gives a thread a list, where a frame is free.
fn add_list(memory: &mut Memory, book: &mut FrameBook, root: &mut RootKernel, thread: u8)
    requires stands { Stands root.old memory.old }
    requires booked { IsBooked root.old book.old memory.old }
    requires thread { thread < MAX_THREADS }
    requires none { HasNoViews root.old thread }
    requires some { 0 < free_count book.old }
    ensures added { (frame : Frame) × IsAddedList root.old root.new book.old book.new memory.old memory.new thread frame }
    ensures stands { Stands root.new memory.new }
    ensures booked { IsBooked root.new book.new memory.new }
{
    match root.add_list(memory, book, thread) {
        Ok(()) => {}
        Err(_) => unreachable!(),
    }
}

/// Adds the home view of a thread that has a list, where six frames are free.
fn add_view(memory: &mut Memory, book: &mut FrameBook, root: &mut RootKernel, thread: u8, home: u32)
    requires stands { Stands root.old memory.old }
    requires booked { IsBooked root.old book.old memory.old }
    requires thread { thread < MAX_THREADS }
    requires home { home < MAX_PROCESSES }
    requires list { eptp_list_frame root.old thread ≢ None }
    requires none { (index : ℕ) → view_of root.old thread index ≡ None }
    requires some { VIEW_FRAMES ≤ free_count book.old }
    ensures added { (view : View) × IsAddedView root.old root.new book.old book.new memory.old memory.new thread
        (root_frame home) (root_frame home) (home_words thread home) false 0 view }
    ensures stands { Stands root.new memory.new }
    ensures booked { IsBooked root.new book.new memory.new }
    ensures others { SameViews root.old memory.old memory.new }
{
    let table = Frame(FIRST_ROOT + home);
    let words = home_words(thread, home);
    match root.add_view(memory, book, thread, table, table, &words, false) {
        Ok(_) => {}
        Err(_) => unreachable!(),
    }
}

/// Gives a thread a list and its home view.
fn add_home_view(
    memory: &mut Memory,
    book: &mut FrameBook,
    root: &mut RootKernel,
    thread: u8,
    home: u32,
)
    requires stands { Stands root.old memory.old }
    requires booked { IsBooked root.old book.old memory.old }
    requires thread { thread < MAX_THREADS }
    requires home { home < MAX_PROCESSES }
    requires none { HasNoViews root.old thread }
    requires some { VIEW_FRAMES + 1 ≤ free_count book.old }
    ensures added { (placement : Placement) → IsOver placement root.old book.old
        → AddedHomeView placement thread home root.new book.new memory.old memory.new }
    ensures booked { IsBooked root.new book.new memory.new }
    ensures fewer { free_count book.new + (VIEW_FRAMES + 1) ≡ free_count book.old }
    ensures others { (other : ℕ) → other ≢ thread → HasNoViews root.old other → HasNoViews root.new other }
{
    add_list(memory, book, root, thread);
    add_view(memory, book, root, thread, home);
}

/// Adds the pages of the stack of a thread.
fn add_stack(
    set: &TableSet,
    memory: &mut Memory,
    book: &mut FrameBook,
    root: &mut RootKernel,
    thread: u8,
    home: u32,
)
    requires thread { thread < MAX_THREADS }
    requires some { STACK_PAGES ≤ free_count book.old }
    requires can { CanTake set.now root.old book.old memory.old }
    ensures root { root.new ≡ root.old }
    ensures added { AddsAll set.now root.old home (pages_from (stack_page thread) 0 STACK_PAGES) book.old book.new memory.old
        memory.new }
    ensures fewer { free_count book.new + STACK_PAGES ≡ free_count book.old }
    ensures can { CanTake set.now root.new book.new memory.new }
{
    for page in 0..STACK {
        add_page(
            set,
            memory,
            book,
            root,
            home,
            stack_address(thread, page),
            0,
        );
    }
}

/// Adds the save page and the stack of a thread.
fn add_save_and_stack(
    set: &TableSet,
    memory: &mut Memory,
    book: &mut FrameBook,
    root: &mut RootKernel,
    thread: u8,
    home: u32,
)
    requires thread { thread < MAX_THREADS }
    requires some { STACK_PAGES + 1 ≤ free_count book.old }
    requires can { CanTake set.now root.old book.old memory.old }
    ensures root { root.new ≡ root.old }
    ensures added { AddsAll set.now root.old home (save_and_stack thread) book.old book.new memory.old memory.new }
    ensures fewer { free_count book.new + (STACK_PAGES + 1) ≡ free_count book.old }
    ensures can { CanTake set.now root.new book.new memory.new }
{
    add_page(
        set,
        memory,
        book,
        root,
        home,
        Linear(save_address(thread)),
        0,
    );
    add_stack(set, memory, book, root, thread, home);
}

/// Adds a thread: its list, its home view, its save page and its stack.
pub fn add_thread(
    set: &TableSet,
    memory: &mut Memory,
    book: &mut FrameBook,
    root: &mut RootKernel,
    thread: u8,
    home: u32,
)
    requires ready { (placement : Placement) × (state : State)
        × IsReadyForThread placement root.old book.old memory.old state thread home set.now }
    requires thread { thread < MAX_THREADS }
    requires none { HasNoViews root.old thread }
    requires some { THREAD_FRAMES ≤ free_count book.old }
    ensures added { (placement : Placement) (state : State) (address : ℕ)
        → IsReadyForThread placement root.old book.old memory.old state thread home set.now
        → AddedThread placement root.new book.new memory.new state (record { home = home; address = address }) }
    ensures frames { frame_count memory.new ≡ frame_count memory.old }
    ensures fewer { free_count book.new + THREAD_FRAMES ≡ free_count book.old }
    ensures others { (other : ℕ) → other ≢ thread → HasNoViews root.old other → HasNoViews root.new other }
{
    add_home_view(memory, book, root, thread, home);
    add_save_and_stack(set, memory, book, root, thread, home);
}
