//! The words of extended page tables (SDM volume 3, sections 24.6.11 and 28.3.2).

ghost use Rattle.std.specs.Prelude.{◌≡◌};
ghost use Rattle.sb_root.specs.Entry.{eptp_to, leaf_to, link_to};

use sb_memory::Frame;
use sb_walks::{EPTP_FLAGS, LEAF_WRITE_BACK};

/// Read, write and execute: bits 2 to 0 of an entry.
const ALL_RIGHTS: u64 = 7;

/// Read: the rights of a lowest entry, its bits 2 to 0.
pub const RIGHT_READ: u8 = 1;
/// Read and write.
pub const RIGHT_READ_WRITE: u8 = 3;
/// Execute alone.
pub const RIGHT_EXECUTE: u8 = 4;

/// The EPT pointer to a table of level 4.
pub fn eptp(root: Frame) -> u64
    ensures { result ≡ eptp_to root.0 }
{
    root.base().0 + EPTP_FLAGS
}

/// The entry above the lowest level that leads to a table, with all rights.
pub fn link(table: Frame) -> u64
    ensures { result ≡ link_to table.0 }
{
    table.base().0 + ALL_RIGHTS
}

/// The lowest entry that leads to a frame. One without rights is 0.
pub fn leaf(frame: Frame, rights: u8) -> u64
    ensures { result ≡ leaf_to frame.0 rights }
{
    if rights == 0 {
        0
    } else {
        frame.base().0 + (LEAF_WRITE_BACK + u64::from(rights))
    }
}
