//! The pages of a process at its start.

ghost use Rattle.std.specs.Prelude.{◌≡◌, ◌+◌, ◌*◌, ◌<◌, ◌≤◌, ◌^◌, ◌∷◌, [], length, take};
ghost use Rattle.sb_abi.specs.declared.space.TheConstants.{WINDOW_PAGES};
ghost use Rattle.sb_memory.specs.Pages.{page_count};
ghost use Rattle.sb_memory.specs.Physical.{HasSize, frame_count};
ghost use Rattle.sb_memory.specs.declared.page.TheConstants.{PAGE_SIZE};
ghost use Rattle.sb_frames.specs.Book.{free_count};
ghost use Rattle.sb_state.specs.declared.page.PageName.TheVariants.{Pool};
ghost use Rattle.sb_state.specs.State.{page_with};
ghost use Rattle.sb_state.specs.PageWords.{zeros};
ghost use Rattle.sb_state.specs.Start.{heap_pages, padded_pages, page_padded, process_pages};
ghost use Rattle.sb_shows.specs.Fills.{FillsFrame};
ghost use Rattle.sb_shows.specs.StartLaws.{ImageFitsWindows};
ghost use Rattle.sb_load.specs.FirstState.{image_of};
ghost use Rattle.sb_mapping.specs.Taking.{CanTake, TakesPage};
ghost use Rattle.sb_mapping.specs.StartPages.{AddsAll, heap_at, page_bytes, pages_need, part_at, part_filler, part_mode, part_name, part_pages};

use crate::entry::{page_entry, page_kind, page_rights};
use crate::taking::add_page;
use sb_abi::{AREA_ADDRESS, DATA_ADDRESS, HEAP_ADDRESS, POOL_ADDRESS, TEXT_ADDRESS};
use sb_bundle::Image;
use sb_frames::FrameBook;
use sb_memory::{Frame, Linear, Memory, page_count};
use sb_pagewalk::TableSet;
use sb_rewrite::Rewritten;
use sb_root::RootKernel;
use sb_state::Mode;

/// The bytes of a page.
const PAGE_SIZE: usize = sb_memory::PAGE_SIZE as usize;

/// A part of a process that has bytes at the start.
#[derive(Clone, Copy)]
pub enum ImagePart {
    Text,
    Area,
    Data,
}

impl ImagePart {
    /// The linear address of one of its pages.
    fn address(self, page: u32) -> Linear
        ensures { result.0 ≡ part_at self page }
    {
        let first = match self {
            ImagePart::Text => TEXT_ADDRESS,
            ImagePart::Area => AREA_ADDRESS,
            ImagePart::Data => DATA_ADDRESS,
        };
        Linear(first + (PAGE_SIZE as u64) * u64::from(page))
    }

    /// How it is accessed.
    fn mode(self) -> Mode
        ensures { result ≡ part_mode self }
    {
        match self {
            ImagePart::Text | ImagePart::Area => Mode::Fetch,
            ImagePart::Data => Mode::ReadWrite,
        }
    }

    /// What stands behind it in its last page. No instruction begins with CC.
    fn filler(self) -> u8
        ensures { result ≡ part_filler self }
    {
        match self {
            ImagePart::Text | ImagePart::Area => 0xCC,
            ImagePart::Data => 0,
        }
    }
}

// ---- a page

/// The first bytes, as many as a page has.
#[tactic(auto, using(sb_state::proofs::Filling::short_page))]
fn first_page(bytes: &[u8]) -> &[u8]
    ensures first { result.now ≡ take PAGE_SIZE bytes.now }
    ensures within { length result.now ≤ PAGE_SIZE }
{
    if bytes.len() < PAGE_SIZE {
        bytes
    } else {
        &bytes[..PAGE_SIZE]
    }
}

/// The bytes of one page, of bytes that go over several.
fn page_bytes(bytes: &[u8], page: usize) -> &[u8]
    requires { PAGE_SIZE * page < length bytes.now }
    ensures bytes { result.now ≡ page_bytes bytes.now page }
    ensures few { length result.now ≤ PAGE_SIZE }
{
    first_page(&bytes[PAGE_SIZE * page..])
}

/// Fills a frame with at most a page of bytes, and with a filler behind them.
fn fill_image(memory: &mut Memory, frame: Frame, filler: u8, bytes: &[u8])
    requires inside { frame.0 < frame_count memory.old }
    requires size { HasSize memory.old }
    requires few { length bytes.now ≤ PAGE_SIZE }
    ensures { FillsFrame frame.0 (page_padded filler bytes.now) memory.old memory.new }
{
    memory.set_bytes(frame.base(), &[filler; PAGE_SIZE]);
    memory.set_bytes(frame.base(), bytes);
}

/// Adds a page of a part of a process, with at most a page of bytes.
fn add_image_page(
    set: &TableSet,
    memory: &mut Memory,
    book: &mut FrameBook,
    root: &mut RootKernel,
    process: u32,
    part: ImagePart,
    page: u32,
    bytes: &[u8],
)
    requires page { page < part_pages part }
    requires few { length bytes.now ≤ PAGE_SIZE }
    requires some { 0 < free_count book.old }
    requires can { CanTake set.now root.old book.old memory.old }
    ensures root { root.new ≡ root.old }
    ensures added { TakesPage set.now root.old book.old book.new memory.old memory.new process (part_at part page)
        (part_mode part) (page_padded (part_filler part) bytes.now) }
    ensures can { CanTake set.now root.new book.new memory.new }
{
    let mode = part.mode();
    let frame = book.take_free(page_kind(mode), process);
    fill_image(memory, frame, part.filler(), bytes);
    set.set_page(memory, part.address(page), page_entry(frame.0, mode));
    root.expose(memory, frame, page_rights(mode));
}

// ---- the pages of a process

/// The linear address of a heap page.
pub fn heap_address(page: u32) -> Linear
    ensures { result.0 ≡ heap_at page }
{
    Linear(HEAP_ADDRESS + (PAGE_SIZE as u64) * u64::from(page))
}

/// Adds the pages of a part of a process.
fn add_part(
    set: &TableSet,
    memory: &mut Memory,
    book: &mut FrameBook,
    root: &mut RootKernel,
    process: u32,
    part: ImagePart,
    bytes: &[u8],
)
    requires few { page_count (length bytes.now) ≤ part_pages part }
    requires some { page_count (length bytes.now) ≤ free_count book.old }
    requires can { CanTake set.now root.old book.old memory.old }
    ensures root { root.new ≡ root.old }
    ensures added { AddsAll set.now root.old process (padded_pages (part_name part process) (part_filler part) bytes.now)
        book.old book.new memory.old memory.new }
    ensures fewer { free_count book.new + page_count (length bytes.now) ≡ free_count book.old }
    ensures can { CanTake set.now root.new book.new memory.new }
{
    for page in 0..page_count(bytes.len()) {
        add_image_page(
            set,
            memory,
            book,
            root,
            process,
            part,
            page as u32,
            page_bytes(bytes, page),
        );
    }
}

/// Adds so many heap pages of zeros.
fn add_heap(
    set: &TableSet,
    memory: &mut Memory,
    book: &mut FrameBook,
    root: &mut RootKernel,
    process: u32,
    count: u32,
)
    requires few { count ≤ WINDOW_PAGES }
    requires some { count ≤ free_count book.old }
    requires can { CanTake set.now root.old book.old memory.old }
    ensures root { root.new ≡ root.old }
    ensures added { AddsAll set.now root.old process (heap_pages process count) book.old book.new memory.old memory.new }
    ensures fewer { free_count book.new + count ≡ free_count book.old }
    ensures can { CanTake set.now root.new book.new memory.new }
{
    for page in 0..count {
        add_page(set, memory, book, root, process, heap_address(page), 0);
    }
}

/// Adds the pool page, of zeros.
fn add_pool(
    set: &TableSet,
    memory: &mut Memory,
    book: &mut FrameBook,
    root: &mut RootKernel,
    process: u32,
)
    requires some { 0 < free_count book.old }
    requires can { CanTake set.now root.old book.old memory.old }
    ensures root { root.new ≡ root.old }
    ensures added { AddsAll set.now root.old process (page_with (Pool process) zeros ∷ []) book.old book.new memory.old
        memory.new }
    ensures fewer { free_count book.new + 1 ≡ free_count book.old }
    ensures can { CanTake set.now root.new book.new memory.new }
{
    add_page(set, memory, book, root, process, Linear(POOL_ADDRESS), 0);
}

/// Adds the pages of a process of an image: text, rewrite area, initial data, heap and pool page.
pub fn add_process_pages(
    set: &TableSet,
    memory: &mut Memory,
    book: &mut FrameBook,
    root: &mut RootKernel,
    process: u32,
    image: &Image,
    made: &Rewritten,
)
    requires fits { ImageFitsWindows (image_of image.now made.now) }
    requires some { pages_need (image_of image.now made.now) ≤ free_count book.old }
    requires can { CanTake set.now root.old book.old memory.old }
    ensures root { root.new ≡ root.old }
    ensures added { AddsAll set.now root.old process (process_pages process (image_of image.now made.now))
        book.old book.new memory.old memory.new }
    ensures fewer { free_count book.new + pages_need (image_of image.now made.now) ≡ free_count book.old }
    ensures can { CanTake set.now root.new book.new memory.new }
{
    add_part(
        set,
        memory,
        book,
        root,
        process,
        ImagePart::Text,
        made.text(),
    );
    add_part(
        set,
        memory,
        book,
        root,
        process,
        ImagePart::Area,
        made.area(),
    );
    add_part(
        set,
        memory,
        book,
        root,
        process,
        ImagePart::Data,
        image.initial.items(),
    );
    add_heap(set, memory, book, root, process, image.heap_pages);
    add_pool(set, memory, book, root, process);
}
