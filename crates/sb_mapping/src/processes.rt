//! The processes of a start.

ghost use Rattle.std.specs.Prelude.{ℕ, ◌≡◌, ◌+◌, ◌<◌, ◌≤◌};
ghost use Rattle.sb_abi.specs.declared.space.TheConstants.{MAX_PROCESSES};
ghost use Rattle.sb_memory.specs.Physical.{frame_count};
ghost use Rattle.sb_frames.specs.Book.{free_count};
ghost use Rattle.sb_state.specs.State.{State};
ghost use Rattle.sb_load.specs.FirstState.{image_of};
ghost use Rattle.sb_shows.specs.Placement.{Placement};
ghost use Rattle.sb_shows.specs.StartLaws.{ImageFitsWindows};
ghost use Rattle.sb_mapping.specs.StartProcesses.{AddedProcess, IsReadyForProcess, image_need};

use crate::pages::add_process_pages;
use crate::tables::add_tables;
use sb_bundle::Image;
use sb_frames::FrameBook;
use sb_memory::Memory;
use sb_pagewalk::TableSet;
use sb_rewrite::Rewritten;
use sb_root::RootKernel;

/// Adds the process of an image, with its page tables.
pub fn add_process(
    memory: &mut Memory,
    book: &mut FrameBook,
    root: &mut RootKernel,
    process: u32,
    image: &Image,
    made: &Rewritten,
) -> TableSet
    requires ready { (placement : Placement) × (state : State)
        × IsReadyForProcess placement root.old book.old memory.old state process }
    requires few { process < MAX_PROCESSES }
    requires fits { ImageFitsWindows (image_of image.now made.now) }
    requires some { image_need (image_of image.now made.now) ≤ free_count book.old }
    ensures root { root.new ≡ root.old }
    ensures added { (placement : Placement) (state : State)
        → IsReadyForProcess placement root.old book.old memory.old state process
        → AddedProcess placement root.new book.new memory.new state process (image_of image.now made.now) result }
    ensures frames { frame_count memory.new ≡ frame_count memory.old }
    ensures fewer { free_count book.new + image_need (image_of image.now made.now) ≡ free_count book.old }
{
    let set = add_tables(memory, book, root, process);
    add_process_pages(&set, memory, book, root, process, image, made);
    set
}
