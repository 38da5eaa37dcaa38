//! How a page may be accessed, by its name.

ghost use Rattle.std.specs.Prelude.{◌≡◌};
ghost use Rattle.sb_pages.specs.PageName.{permits, mode_of};

use crate::page::{Mode, PageName};
use sb_memory::Access;

/// How the page of a name may be accessed.
#[tactic(auto, unfolding(crate::specs::PageName::mode_of))]
pub fn mode_of(name: PageName, executable: bool) -> Mode
    ensures { result ≡ mode_of name executable }
{
    match name {
        PageName::Heap(_, _) if executable => Mode::Fetch,
        PageName::Text(_, _)
        | PageName::Area(_, _)
        | PageName::HomeTrampoline
        | PageName::ServerTrampoline => Mode::Fetch,
        PageName::Record(_, _) => Mode::Read,
        PageName::Data(_, _)
        | PageName::Heap(_, _)
        | PageName::Pool(_)
        | PageName::ServerStack(_, _)
        | PageName::Save(_)
        | PageName::Stack(_, _)
        | PageName::Buffer(_, _, _)
        | PageName::Scratch(_, _) => Mode::ReadWrite,
    }
}

/// Whether a mode permits an access.
pub fn permits(mode: Mode, access: Access) -> bool
    ensures { result ≡ permits mode access }
{
    match (mode, access) {
        (Mode::Fetch, Access::Fetch)
        | (Mode::Read, Access::Read)
        | (Mode::ReadWrite, Access::Read | Access::Write) => true,
        (Mode::Fetch, Access::Read | Access::Write)
        | (Mode::Read, Access::Write | Access::Fetch)
        | (Mode::ReadWrite, Access::Fetch) => false,
    }
}
