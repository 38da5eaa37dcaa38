//! The walk over four levels.

ghost use Rattle.std.specs.Prelude.{◌≡◌, ◌<◌, ◌≤◌, ◌^◌, IfOk};
ghost use Rattle.sb_walks.specs.Entry.{entry_place};
ghost use Rattle.sb_walks.specs.Reads.{after_entries};
ghost use Rattle.sb_walks.specs.Guest.{walk_reads, walk_step, guest_walk};

use crate::entry::judge;
use crate::tables::Tables;
use sb_memory::{Access, GuestPhys, Linear, PAGE_SIZE};
use sb_walks::{WalkStop, entry_place, frame_number};

/// One level: from the frame of a table to the frame to which the entry for the address leads.
#[tactic(auto, unfolding(sb_walks::specs::Guest::walk_step))]
fn step<T: Tables>(
    tables: &mut T,
    linear: u64,
    access: Access,
    level: u8,
    frame: u64,
) -> Result<u64, WalkStop>
    requires level { level ≤ 4 }
    requires frame { frame < 2 ^ 40 }
    ensures answer { result ≡ walk_step (T.entries (T.meaning tables.old)) linear access level frame }
    ensures range { IfOk result (λ next. next < 2 ^ 40) }
    ensures same { T.meaning tables.new ≡ T.meaning tables.old }
    ensures account { T.account tables.new
        ≡ T.rule (T.meaning tables.old) (entry_place frame level linear) (T.account tables.old) }
    ensures kept { T.kept tables.new ≡ T.kept tables.old }
{
    match tables.entry(GuestPhys(entry_place(frame, level, linear))) {
        Ok(entry) => judge(access, level, entry),
        Err(stop) => Err(WalkStop::Table(stop)),
    }
}

/// The guest-physical address of a linear one for a user-mode access, from the table to which CR3 leads.
///
/// # Errors
///
/// `NonCanonical` comes exactly where bits 63 to 47 are not all the same. Then, at each level from 4 to 1, the first that
/// applies of: `Table`, the entry cannot be read; `NotPresent`; `Large`, at level 3 or 2; `Denied`.
#[tactic(auto, unfolding(sb_walks::specs::Guest::guest_walk, sb_walks::specs::Guest::walk_reads))]
pub fn walk<T: Tables>(
    tables: &mut T,
    cr3: u64,
    linear: Linear,
    access: Access,
) -> Result<GuestPhys, WalkStop>
    ensures answer { result ≡ guest_walk (T.entries (T.meaning tables.old)) cr3 linear.0 access }
    ensures same { T.meaning tables.new ≡ T.meaning tables.old }
    ensures account { T.account tables.new
        ≡ after_entries (T.rule (T.meaning tables.old)) (walk_reads (T.entries (T.meaning tables.old)) cr3 linear.0 access)
        (T.account tables.old) }
    ensures kept { T.kept tables.new ≡ T.kept tables.old }
{
    if !linear.is_canonical() {
        return Err(WalkStop::NonCanonical);
    }
    let directory_pointers = step(tables, linear.0, access, 4, frame_number(cr3))?;
    let directory = step(tables, linear.0, access, 3, directory_pointers)?;
    let table = step(tables, linear.0, access, 2, directory)?;
    let page = step(tables, linear.0, access, 1, table)?;
    Ok(GuestPhys(PAGE_SIZE * page + linear.offset()))
}
