//! What tables and frame book say of a page, by how it may be accessed.

ghost use Rattle.std.specs.Prelude.{◌≡◌};
ghost use Rattle.sb_shows.specs.Placement.{leaf_for, rights_for};
ghost use Rattle.sb_mapping.specs.Taking.{page_kind};

use sb_frames::Kind;
use sb_memory::PAGE_SIZE;
use sb_root::{RIGHT_EXECUTE, RIGHT_READ, RIGHT_READ_WRITE};
use sb_state::Mode;

/// Present and user, and not writable: a lowest entry for code.
const CODE: u64 = 5;

/// The same, and no fetch: a lowest entry for what is only read.
const READ: u64 = 5 + (1 << 63);

/// Present, writable and user, and no fetch: a lowest entry for data.
const DATA: u64 = 7 + (1 << 63);

/// The lowest entry that leads to a guest-physical page, for a mode.
#[tactic(auto, unfolding(sb_shows::specs::Placement::leaf_for))]
pub fn page_entry(page: u32, mode: Mode) -> u64
    ensures { result ≡ leaf_for page mode }
{
    let start = PAGE_SIZE * u64::from(page);
    match mode {
        Mode::Fetch => start + CODE,
        Mode::Read => start + READ,
        Mode::ReadWrite => start + DATA,
    }
}

/// What the base permits of a page of a mode.
pub fn page_rights(mode: Mode) -> u8
    ensures { result ≡ rights_for mode }
{
    match mode {
        Mode::Fetch => RIGHT_EXECUTE,
        Mode::Read => RIGHT_READ,
        Mode::ReadWrite => RIGHT_READ_WRITE,
    }
}

/// What the book says of the frame of a page.
pub fn page_kind(mode: Mode) -> Kind
    ensures { result ≡ page_kind mode }
{
    match mode {
        Mode::Fetch => Kind::Code,
        Mode::Read | Mode::ReadWrite => Kind::Writable,
    }
}
