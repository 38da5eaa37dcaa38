//! What an entry of a page table says, and where it stands (SDM volume 3, sections 4.5 and 28.3.2).

ghost use Rattle.std.specs.Prelude.{◌≡◌, ◌<◌, ◌≤◌, ◌^◌};
ghost use Rattle.sb_walks.specs.Entry.{entry_place, frame_in, has_bit, index_at};
ghost use Rattle.sb_walks.specs.Ept.{is_eptp};

use sb_memory::PAGE_SIZE;

/// PS: at levels 3 and 2, bit 7 says that the entry maps a large page.
pub const PS: u32 = 7;

/// The memory type of a page that is cached for reads and writes.
pub const WRITE_BACK: u64 = 6;

/// That memory type in bits 5 to 3 of a lowest entry of an EPT.
pub const LEAF_WRITE_BACK: u64 = WRITE_BACK << 3;

/// Bits 11 to 0 of an EPT pointer: memory type 6 (write-back), a walk of four levels, no accessed and dirty flags.
pub const EPTP_FLAGS: u64 = 0x1E;

/// Whether a word is an EPT pointer: bits 11 to 0 are `EPTP_FLAGS`, and bits 63 to 52 are 0 (SDM volume 3, section 24.6.11).
pub fn is_eptp(word: u64) -> bool
    ensures { result ≡ is_eptp word }
{
    word & 0xFFF == EPTP_FLAGS && word >> 52 == 0
}

/// Whether a bit of an entry is set.
pub fn has_bit(entry: u64, bit: u32) -> bool
    requires { bit < 64 }
    ensures { result ≡ has_bit entry bit }
{
    (entry >> bit) & 1 == 1
}

/// The number of the frame to which an entry, CR3 or an EPT pointer leads: bits 51 to 12.
pub fn frame_number(word: u64) -> u64
    ensures value { result ≡ frame_in word }
    ensures range { result < 2 ^ 40 }
{
    (word >> 12) & 0xFF_FFFF_FFFF
}

/// The index of an address into a table of a level, from 0 to 511.
pub fn index(level: u8, address: u64) -> u64
    requires { level ≤ 4 }
    ensures value { result ≡ index_at level address }
    ensures range { result < 512 }
{
    (address >> (3 + 9 * u32::from(level))) & 0x1FF
}

/// The place of the entry for an address in the table of a level that stands in a frame.
pub fn entry_place(frame: u64, level: u8, address: u64) -> u64
    requires frame { frame < 2 ^ 40 }
    requires level { level ≤ 4 }
    ensures { result ≡ entry_place frame level address }
{
    PAGE_SIZE * frame + 8 * index(level, address)
}
