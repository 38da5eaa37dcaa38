//! What an entry of a page table says (SDM volume 3, section 4.5).

ghost use Rattle.std.specs.Prelude.{◌≡◌, ◌<◌, ◌^◌, IfOk};
ghost use Rattle.sb_walks.specs.Guest.{guest_entry_answer, guest_permits};

use sb_memory::Access;
use sb_walks::{PS, WalkStop, frame_number, has_bit};

/// P: the entry is in use.
const PRESENT: u32 = 0;
/// R/W: writes are permitted.
const WRITABLE: u32 = 1;
/// U/S: user-mode accesses are permitted.
const USER: u32 = 2;
/// XD: fetches are not permitted.
const EXECUTE_DISABLE: u32 = 63;

/// Whether an entry permits an access in user mode.
fn guest_permits(access: Access, entry: u64) -> bool
    ensures { result ≡ guest_permits access entry }
{
    match access {
        Access::Read => has_bit(entry, USER),
        Access::Write => has_bit(entry, USER) && has_bit(entry, WRITABLE),
        Access::Fetch => has_bit(entry, USER) && !has_bit(entry, EXECUTE_DISABLE),
    }
}

/// The number of the next frame, or the first reason to refuse the entry.
#[tactic(auto, unfolding(sb_walks::specs::Guest::guest_entry_answer))]
pub fn judge(access: Access, level: u8, entry: u64) -> Result<u64, WalkStop>
    ensures answer { result ≡ guest_entry_answer access level entry }
    ensures range { IfOk result (λ next. next < 2 ^ 40) }
{
    if !has_bit(entry, PRESENT) {
        return Err(WalkStop::NotPresent { level });
    }
    if (level == 3 || level == 2) && has_bit(entry, PS) {
        return Err(WalkStop::Large { level });
    }
    if !guest_permits(access, entry) {
        return Err(WalkStop::Denied { level });
    }
    Ok(frame_number(entry))
}
