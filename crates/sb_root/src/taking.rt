//! Frames that are taken from the book.

ghost use Rattle.std.specs.Prelude.{ℕ, ◌≡◌, ◌+◌, ◌≤◌, true};
ghost use Rattle.std.specs.List.{Contains};
ghost use Rattle.sb_abi.specs.declared.frames.TheConstants.{VIEW_FRAMES};
ghost use Rattle.sb_frames.specs.Book.{free_count};
ghost use Rattle.sb_root.specs.Root.{AreDifferent, view_frames};
ghost use Rattle.sb_root.specs.Calls.{IsFree, with_parts};

use crate::tables::ViewTables;
use crate::view::View;
use sb_frames::{FrameBook, Kind};
use sb_memory::Frame;

/// Takes the six frames of a view, for a thread and what the view shows.
pub fn take_view(
    book: &mut FrameBook,
    thread: u8,
    home_root: Frame,
    target_root: Frame,
    server: bool,
) -> View
    requires { VIEW_FRAMES ≤ free_count book.old }
    ensures home { result.home_root ≡ home_root }
    ensures target { result.target_root ≡ target_root }
    ensures server { result.server ≡ server }
    ensures listed { result.listed ≡ true }
    ensures different { AreDifferent (view_frames result) }
    ensures free { (frame : ℕ) → Contains (view_frames result) frame → IsFree book.old frame }
    ensures taken { book.new ≡ with_parts book.old thread 0 (view_frames result) }
    ensures count { free_count book.new + VIEW_FRAMES ≡ free_count book.old }
{
    let owner = u32::from(thread);
    let root = book.take_free(Kind::EptTable, owner);
    let pointers = book.take_free(Kind::EptTable, owner);
    let directory = book.take_free(Kind::EptTable, owner);
    let first = book.take_free(Kind::EptTable, owner);
    let record_page = book.take_free(Kind::RecordPage, owner);
    let scratch_page = book.take_free(Kind::ScratchPage, owner);
    View {
        tables: ViewTables {
            root,
            pointers,
            directory,
            first,
        },
        record_page,
        scratch_page,
        home_root,
        target_root,
        server,
        listed: true,
    }
}
