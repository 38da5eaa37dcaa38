//! Pages that are added: a frame is taken, filled, mapped and exposed.

ghost use Rattle.std.specs.Prelude.{◌≡◌, ◌+◌, ◌*◌, ◌<◌, ◌≤◌, [], ◌∷◌};
ghost use Rattle.sb_abi.specs.declared.space.TheConstants.{WINDOW_PAGES};
ghost use Rattle.sb_memory.specs.Physical.{HasSize, HoldsBytes, frame_count};
ghost use Rattle.sb_memory.specs.Changes.{SameOutside};
ghost use Rattle.sb_memory.specs.declared.page.TheConstants.{PAGE_SIZE};
ghost use Rattle.sb_frames.specs.Book.{free_count};
ghost use Rattle.sb_pagewalk.specs.Windows.{IsInWindow};
ghost use Rattle.sb_state.specs.declared.page.Mode.TheVariants.{ReadWrite};
ghost use Rattle.sb_mapping.specs.Carries.{TakesStacks, stack_at, stack_top};
ghost use Rattle.sb_mapping.specs.Taking.{CanTake, TakesPage, top_bytes};

use crate::entry::page_entry;
use sb_abi::{EXIT_STUB, SERVER_STACKS_ADDRESS, STACK_PAGES, TOP_WORD};
use sb_frames::{FrameBook, Kind};
use sb_memory::{Frame, Linear, Memory, PAGE_SIZE, PhysAddr};
use sb_pagewalk::TableSet;
use sb_root::{RIGHT_READ_WRITE, RootKernel};
use sb_state::Mode;

/// The pages of a stack.
const STACK: u32 = STACK_PAGES as u32;

/// Fills a frame with zeros, and puts a word at its top if it is not 0.
pub fn fill(memory: &mut Memory, frame: Frame, top: u64)
    requires inside { frame.0 < frame_count memory.old }
    requires size { HasSize memory.old }
    ensures same { SameOutside (frame.0 ∷ []) memory.old memory.new }
    ensures held { HoldsBytes memory.new frame.0 (top_bytes top) }
{
    memory.clear_frame(frame);
    if top != 0 {
        memory.set_word(PhysAddr(PAGE_SIZE * u64::from(frame.0) + TOP_WORD), top);
    }
}

/// Adds a writable page of zeros, with a word at its top if that is not 0, to the tables of a process.
pub fn add_page(
    set: &TableSet,
    memory: &mut Memory,
    book: &mut FrameBook,
    root: &mut RootKernel,
    owner: u32,
    at: Linear,
    top: u64,
)
    requires window { IsInWindow at.0 }
    requires some { 0 < free_count book.old }
    requires can { CanTake set.now root.old book.old memory.old }
    ensures root { root.new ≡ root.old }
    ensures added { TakesPage set.now root.old book.old book.new memory.old memory.new owner at.0 ReadWrite (top_bytes top) }
    ensures can { CanTake set.now root.new book.new memory.new }
{
    let frame = book.take_free(Kind::Writable, owner);
    fill(memory, frame, top);
    set.set_page(memory, at, page_entry(frame.0, Mode::ReadWrite));
    root.expose(memory, frame, RIGHT_READ_WRITE);
}

/// Adds so many pages of server stacks to a process.
pub fn add_stacks(
    set: &TableSet,
    memory: &mut Memory,
    book: &mut FrameBook,
    root: &mut RootKernel,
    owner: u32,
    count: u32,
)
    requires few { count ≤ WINDOW_PAGES }
    requires some { count ≤ free_count book.old }
    requires can { CanTake set.now root.old book.old memory.old }
    ensures root { root.new ≡ root.old }
    ensures added { TakesStacks set.now root.old book.old book.new memory.old memory.new owner count }
    ensures fewer { free_count book.new + count ≡ free_count book.old }
    ensures can { CanTake set.now root.new book.new memory.new }
{
    for page in 0..count {
        add_page(
            set,
            memory,
            book,
            root,
            owner,
            stack_address(page),
            top_word(page),
        );
    }
}

/// The linear address of a page of a server stack.
fn stack_address(page: u32) -> Linear
    ensures { result.0 ≡ stack_at page }
{
    Linear(SERVER_STACKS_ADDRESS + PAGE_SIZE * u64::from(page))
}

/// The word at the top of a page of a server stack.
fn top_word(page: u32) -> u64
    ensures { result ≡ stack_top page }
{
    if page % STACK == STACK - 1 {
        EXIT_STUB
    } else {
        0
    }
}
