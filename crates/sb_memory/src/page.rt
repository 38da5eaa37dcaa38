//! The size of a page, and how many pages bytes take.

ghost use Rattle.std.specs.Prelude.{◌≡◌};
ghost use Rattle.sb_memory.specs.Pages.{page_count};

/// The bytes of a page, and of a frame (SDM volume 3, section 4.3).
pub const PAGE_SIZE: u64 = 4096;

/// The pages that so many bytes take. The last of them need not be full.
pub fn page_count(bytes: usize) -> usize
    ensures { result ≡ page_count bytes }
{
    bytes.div_ceil(PAGE_SIZE as usize)
}
