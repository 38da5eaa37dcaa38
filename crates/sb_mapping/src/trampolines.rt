//! The two pages of the trampoline, in their frames.

ghost use Rattle.std.specs.Prelude.{◌≡◌, ◌<◌, ◌≤◌, [], ◌∷◌, length};
ghost use Rattle.sb_abi.specs.declared.frames.TheConstants.{KEPT_FRAMES};
ghost use Rattle.sb_abi.specs.declared.layout.TheConstants.{HOME_TRAMPOLINE_FRAME, SERVER_TRAMPOLINE_FRAME};
ghost use Rattle.sb_memory.specs.Physical.{HasSize, HoldsBytes, frame_count};
ghost use Rattle.sb_memory.specs.Changes.{SameOutside};
ghost use Rattle.sb_memory.specs.declared.page.TheConstants.{PAGE_SIZE};
ghost use Rattle.sb_tramp.specs.Home.{home_page};
ghost use Rattle.sb_tramp.specs.Server.{server_page};
ghost use Rattle.sb_shows.specs.Fills.{FillsFrame};

use sb_abi::{HOME_TRAMPOLINE_FRAME, SERVER_TRAMPOLINE_FRAME};
use sb_memory::{Frame, Memory};
use sb_tramp::{put_home, put_server};

/// The bytes of a page.
const PAGE_SIZE: usize = sb_memory::PAGE_SIZE as usize;

/// Puts a page into a frame.
fn put_page(memory: &mut Memory, frame: Frame, page: &[u8])
    requires inside { frame.0 < frame_count memory.old }
    requires size { HasSize memory.old }
    requires whole { length page.now ≡ PAGE_SIZE }
    ensures { FillsFrame frame.0 page.now memory.old memory.new }
{
    memory.set_bytes(frame.base(), page);
}

/// Puts the two pages of the trampoline into their frames.
pub fn put_trampolines(memory: &mut Memory)
    requires kept { KEPT_FRAMES ≤ frame_count memory.old }
    requires size { HasSize memory.old }
    ensures home { HoldsBytes memory.new HOME_TRAMPOLINE_FRAME home_page }
    ensures server { HoldsBytes memory.new SERVER_TRAMPOLINE_FRAME server_page }
    ensures same { SameOutside (HOME_TRAMPOLINE_FRAME ∷ SERVER_TRAMPOLINE_FRAME ∷ []) memory.old memory.new }
{
    let mut page = [0u8; PAGE_SIZE];
    put_home(&mut page);
    put_page(memory, Frame(HOME_TRAMPOLINE_FRAME), &page);
    put_server(&mut page);
    put_page(memory, Frame(SERVER_TRAMPOLINE_FRAME), &page);
}
