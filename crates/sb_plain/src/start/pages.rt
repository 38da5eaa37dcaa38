//! The pages at the start.

ghost use Rattle.std.specs.Prelude.{◌≡◌, ◌^◌, ◌<◌, ◌++◌, ◌∷◌, [], IfOk, OnOk, length, map};
ghost use Rattle.sb_memory.specs.declared.page.TheConstants.{PAGE_SIZE};
ghost use Rattle.sb_state.specs.State.{page_with};
ghost use Rattle.sb_state.specs.PageWords.{zeros};
ghost use Rattle.sb_state.specs.Start.{padded_pages, heap_pages, process_pages, thread_pages, trampoline_pages, images_pages, threads_pages};
ghost use Rattle.sb_plain.specs.Start.{image_of, images_loaded, part_name, part_filler, entry_of};

use sb_bundle::{CoreStart, Image};
use sb_load::Loaded;
use sb_memory::page_count;
use sb_rewrite::Rewritten;
use sb_state::{
    Page, PageBytes, PageName, Pages, home_record, home_trampoline, page_of, server_trampoline,
    zero_bytes,
};
use std::alloc::{AllocError, Global};

/// A part of a process that has bytes at the start.
#[derive(Clone, Copy)]
enum ImagePart {
    Text,
    Area,
    Data,
}

impl ImagePart {
    /// The name of one of its pages.
    fn page(self, process: u32, page: u32) -> PageName
        ensures { result ≡ part_name self process page }
    {
        match self {
            ImagePart::Text => PageName::Text(process, page),
            ImagePart::Area => PageName::Area(process, page),
            ImagePart::Data => PageName::Data(process, page),
        }
    }

    /// What stands behind it in its last page. No instruction begins with CC.
    fn filler(self) -> u8
        ensures { result ≡ part_filler self }
    {
        match self {
            ImagePart::Text | ImagePart::Area => 0xCC,
            ImagePart::Data => 0,
        }
    }
}

fn push_named(pages: &mut Pages, name: PageName, bytes: PageBytes) -> Result<(), AllocError>
    requires { length bytes ≡ PAGE_SIZE }
    ensures { OnOk result (pages.new.pages ≡ pages.old.pages ++ page_with name bytes ∷ []) }
{
    pages.push(Page {
        name,
        executable: false,
        bytes,
    })
}

fn push_zeros(alloc: Global, pages: &mut Pages, name: PageName) -> Result<(), AllocError>
    ensures { OnOk result (pages.new.pages ≡ pages.old.pages ++ page_with name zeros ∷ []) }
{
    push_named(pages, name, zero_bytes(alloc)?)
}

/// The pages of a part of a process.
fn push_part(
    alloc: Global,
    pages: &mut Pages,
    part: ImagePart,
    process: u32,
    contents: &[u8],
) -> Result<(), AllocError>
    requires { length contents.now < 2 ^ 32 }
    ensures { OnOk result (pages.new.pages
        ≡ pages.old.pages ++ padded_pages (part_name part process) (part_filler part) contents.now) }
{
    for page in 0..page_count(contents.len()) {
        let bytes = page_of(alloc, part.filler(), contents, page)?;
        push_named(pages, part.page(process, page as u32), bytes)?;
    }
    Ok(())
}

fn push_heap(alloc: Global, pages: &mut Pages, process: u32, count: u32) -> Result<(), AllocError>
    ensures { OnOk result (pages.new.pages ≡ pages.old.pages ++ heap_pages process count) }
{
    for page in 0..count {
        push_zeros(alloc, pages, PageName::Heap(process, page))?;
    }
    Ok(())
}

/// Text, rewrite area, initial data, heap and pool page.
#[tactic(auto, unfolding(sb_state::specs::Start::process_pages))]
fn push_process(
    alloc: Global,
    pages: &mut Pages,
    process: u32,
    image: &Image,
    made: &Rewritten,
) -> Result<(), AllocError>
    requires text { length made.now.text < 2 ^ 32 }
    requires area { length made.now.area < 2 ^ 32 }
    requires initial { length image.now.initial < 2 ^ 32 }
    ensures { OnOk result (pages.new.pages ≡ pages.old.pages ++ process_pages process (image_of image.now made.now)) }
{
    push_part(alloc, pages, ImagePart::Text, process, made.text())?;
    push_part(alloc, pages, ImagePart::Area, process, made.area())?;
    push_part(
        alloc,
        pages,
        ImagePart::Data,
        process,
        image.initial.items(),
    )?;
    push_heap(alloc, pages, process, image.heap_pages)?;
    push_zeros(alloc, pages, PageName::Pool(process))
}

/// Save page, stack, and the record and the scratch page of the home view.
#[tactic(auto, unfolding(sb_state::specs::Start::thread_pages))]
fn push_thread(alloc: Global, pages: &mut Pages, thread: u32, home: u32) -> Result<(), AllocError>
    ensures { OnOk result (pages.new.pages ≡ pages.old.pages ++ thread_pages thread home) }
{
    push_zeros(alloc, pages, PageName::Save(thread))?;
    push_zeros(alloc, pages, PageName::Stack(thread, 0))?;
    push_zeros(alloc, pages, PageName::Stack(thread, 1))?;
    push_zeros(alloc, pages, PageName::Stack(thread, 2))?;
    push_zeros(alloc, pages, PageName::Stack(thread, 3))?;
    push_named(
        pages,
        PageName::Record(thread, 0),
        home_record(alloc, thread, home)?,
    )?;
    push_zeros(alloc, pages, PageName::Scratch(thread, 0))
}

/// The two pages of the trampoline.
#[tactic(auto, unfolding(sb_state::specs::Start::trampoline_pages))]
fn push_trampolines(alloc: Global, pages: &mut Pages) -> Result<(), AllocError>
    ensures { OnOk result (pages.new.pages ≡ pages.old.pages ++ trampoline_pages) }
{
    push_named(pages, PageName::HomeTrampoline, home_trampoline(alloc)?)?;
    push_named(pages, PageName::ServerTrampoline, server_trampoline(alloc)?)
}

fn push_images(alloc: Global, pages: &mut Pages, loaded: &Loaded) -> Result<(), AllocError>
    ensures { OnOk result (pages.new.pages ≡ pages.old.pages ++ images_pages 0 (images_loaded loaded.now)) }
{
    for (process, image) in loaded.bundle().images.items().iter().enumerate() {
        let number = process as u32;
        push_process(alloc, pages, number, image, loaded.rewritten(number))?;
    }
    Ok(())
}

fn push_threads(alloc: Global, pages: &mut Pages, cores: &[CoreStart]) -> Result<(), AllocError>
    requires { length cores.now < 2 ^ 32 }
    ensures { OnOk result (pages.new.pages ≡ pages.old.pages ++ threads_pages 0 (map entry_of cores.now)) }
{
    for (thread, core) in cores.iter().enumerate() {
        push_thread(alloc, pages, thread as u32, core.process)?;
    }
    Ok(())
}

/// The pages at the start: those of each process, those of each thread, and the trampoline.
pub fn start_pages(alloc: Global, loaded: &Loaded) -> Result<Pages, AllocError>
    ensures { IfOk result (λ pages. pages.pages
        ≡ images_pages 0 (images_loaded loaded.now)
        ++ (threads_pages 0 (map entry_of loaded.now.bundle.cores) ++ trampoline_pages)) }
{
    let mut pages = Pages::new(alloc);
    pages.know_names()?;
    push_images(alloc, &mut pages, loaded)?;
    push_threads(alloc, &mut pages, loaded.bundle().cores.items())?;
    push_trampolines(alloc, &mut pages)?;
    Ok(pages)
}
