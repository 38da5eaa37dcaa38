//! Walks that were made.

ghost use Rattle.std.specs.Prelude.{◌≡◌, ◌*◌, ◌%◌, ◌<◌, ◌^◌, None, Ok, Err, IfSome, IsTrue, true};
ghost use Rattle.sb_memory.specs.declared.page.TheConstants.{PAGE_SIZE};
ghost use Rattle.sb_memory.specs.Physical.{frame_count};
ghost use Rattle.sb_walks.specs.declared.stop.NestedStop.{NestedStop};
ghost use Rattle.sb_walks.specs.Entry.{frame_in};
ghost use Rattle.sb_walks.specs.Ept.{is_eptp};
ghost use Rattle.sb_agree.specs.Noted.{noted_rule};
ghost use Rattle.sb_nested.specs.View.{view, place_of};
ghost use Rattle.sb_nested.specs.Store.{account_after_walk};
ghost use Rattle.sb_copy_bus.specs.MadeWalk.{LastIsMade, LiesBehind};

use sb_memory::{Access, Linear, PAGE_SIZE, Phys, PhysAddr};
use sb_nested::translate;
use sb_partial::Partial;

/// A walk that was made: of which address, for which access, and where it led.
#[derive(Clone, Copy)]
pub struct MadeWalk {
    at: Linear,
    access: Access,
    place: PhysAddr,
}

/// Whether two accesses are of one kind.
#[inline]
fn is_same(one: Access, other: Access) -> bool
    ensures { result ≡ true → one ≡ other }
{
    match one {
        Access::Read => matches!(other, Access::Read),
        Access::Write => matches!(other, Access::Write),
        Access::Fetch => matches!(other, Access::Fetch),
    }
}

/// Where an address leads, if it lies behind that of a walk in its page and the access is the same.
#[inline]
fn place_behind(walk: &MadeWalk, at: Linear, access: Access) -> Option<PhysAddr>
    requires { walk.now.place.0 < 2 ^ 44 }
    ensures { IfSome result (λ place. LiesBehind walk.now access at.0 place.0) }
{
    if walk.at.0 <= at.0
        && walk.at.0 / PAGE_SIZE == at.0 / PAGE_SIZE
        && is_same(walk.access, access)
    {
        Some(PhysAddr(walk.place.0 + (at.0 - walk.at.0)))
    } else {
        None
    }
}

/// Where an address leads, if its walk is not refused. It is noted as its walk, which is made where the last one that was made
/// does not tell.
#[inline]
#[tactic(auto, using(crate::proofs::Again::none_made, sb_nested::proofs::Places::calls_are_words, sb_walks::proofs::Page::place_offset), unfolding(sb_nested::specs::View::place_of))]
pub fn place(
    part: &mut Partial,
    eptp: u64,
    cr3: u64,
    made: &mut Option<MadeWalk>,
    at: Linear,
    access: Access,
) -> Option<PhysAddr>
    requires eptp { IsTrue (is_eptp eptp) }
    requires root { frame_in eptp < frame_count part.old.memory }
    requires made { LastIsMade (view part.old.memory eptp cr3) part.old.noted made.old }
    ensures found { IfSome result (λ place. place_of (view part.old.memory eptp cr3) access at.0 ≡ Ok place) }
    ensures inside { IfSome result (λ place. place.0 < PAGE_SIZE * frame_count part.old.memory) }
    ensures offset { IfSome result (λ place. place.0 % PAGE_SIZE ≡ at.0 % PAGE_SIZE) }
    ensures made { LastIsMade (view part.old.memory eptp cr3) part.new.noted made.new }
    ensures stopped { result ≡ None → (stop : NestedStop)
        × (place_of (view part.old.memory eptp cr3) access at.0 ≡ Err stop) }
    ensures refused { result ≡ None → made.new ≡ None }
    ensures account { part.new.noted
        ≡ account_after_walk noted_rule (view part.old.memory eptp cr3) access at.0 part.old.noted }
    ensures same { part.new.memory ≡ part.old.memory }
    ensures given { part.new.given ≡ part.old.given }
    ensures began { part.new.began ≡ part.old.began }
{
    // a memory has less than 2^32 frames
    part.frames();
    if let Some(walk) = made
        && let Some(place) = place_behind(walk, at, access)
    {
        return Some(place);
    }
    match translate(part, eptp, cr3, at, access) {
        Ok(place) => {
            *made = Some(MadeWalk { at, access, place });
            Some(place)
        }
        Err(_) => {
            *made = None;
            None
        }
    }
}
