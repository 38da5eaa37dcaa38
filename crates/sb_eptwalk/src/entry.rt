//! What an entry of an extended page table says (SDM volume 3, section 28.3.2).

ghost use Rattle.std.specs.Prelude.{◌≡◌, ◌<◌, IfOk};
ghost use Rattle.sb_walks.specs.Ept.{ept_entry_answer, ept_permits, is_large, is_misconfigured};

use sb_memory::{Access, EptStop};
use sb_walks::{PS, WRITE_BACK, frame_number, has_bit};

/// R: reads are permitted.
const READABLE: u32 = 0;
/// W: writes are permitted.
const WRITABLE: u32 = 1;
/// X: fetches are permitted.
const EXECUTABLE: u32 = 2;

/// Whether an entry permits an access.
fn ept_permits(access: Access, entry: u64) -> bool
    ensures { result ≡ ept_permits access entry }
{
    match access {
        Access::Read => has_bit(entry, READABLE),
        Access::Write => has_bit(entry, WRITABLE),
        Access::Fetch => has_bit(entry, EXECUTABLE),
    }
}

/// Whether write is permitted without read, or a page has another memory type than write-back.
fn is_misconfigured(level: u8, entry: u64) -> bool
    ensures { result ≡ is_misconfigured level entry }
{
    has_bit(entry, WRITABLE) && !has_bit(entry, READABLE)
        || level == 1 && (entry >> 3) & 7 != WRITE_BACK
}

/// Whether an entry maps a large page.
fn is_large(level: u8, entry: u64) -> bool
    ensures { result ≡ is_large level entry }
{
    (level == 3 || level == 2) && has_bit(entry, PS)
}

/// The number of the next frame in a memory of so many frames, or the first reason to refuse the entry.
#[tactic(auto, unfolding(sb_walks::specs::Ept::ept_entry_answer))]
pub fn judge(frames: u32, access: Access, level: u8, entry: u64) -> Result<u64, EptStop>
    ensures answer { result ≡ ept_entry_answer frames access level entry }
    ensures inside { IfOk result (λ next. next < frames) }
{
    if entry & 7 == 0 {
        return Err(EptStop::NotPresent { level });
    }
    if is_misconfigured(level, entry) {
        return Err(EptStop::Misconfigured { level });
    }
    if is_large(level, entry) {
        return Err(EptStop::Large { level });
    }
    let next = frame_number(entry);
    if next >= u64::from(frames) {
        return Err(EptStop::Outside { level });
    }
    if !ept_permits(access, entry) {
        return Err(EptStop::Denied { level });
    }
    Ok(next)
}
