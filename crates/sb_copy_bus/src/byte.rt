//! The byte at an address.

ghost use Rattle.std.specs.Prelude.{◌≡◌, ◌<◌, IsTrue};
ghost use Rattle.sb_memory.specs.Physical.{frame_count};
ghost use Rattle.sb_walks.specs.Entry.{frame_in};
ghost use Rattle.sb_walks.specs.Ept.{is_eptp};
ghost use Rattle.sb_agree.specs.Noted.{noted_rule};
ghost use Rattle.sb_nested.specs.View.{view, view_byte};
ghost use Rattle.sb_nested.specs.Store.{account_after_byte};
ghost use Rattle.sb_copy_bus.specs.MadeWalk.{LastIsMade};

use crate::walk::{MadeWalk, place};
use sb_bus::{BusStop, ByteSource};
use sb_memory::{Access, Linear, Phys};
use sb_nested::NestedBus;
use sb_partial::Partial;

/// The byte at an address. Where the walk is refused, `NestedBus` makes it again and says why.
#[tactic(auto, using(crate::proofs::Again::none_made, crate::proofs::Again::byte_again, sb_memory::proofs::Accounts::after_reads_append), unfolding(sb_nested::specs::View::view_byte, sb_nested::specs::View::byte_calls))]
pub fn byte_at(
    part: &mut Partial,
    eptp: u64,
    cr3: u64,
    made: &mut Option<MadeWalk>,
    at: Linear,
    access: Access,
) -> Result<u8, BusStop>
    requires eptp { IsTrue (is_eptp eptp) }
    requires root { frame_in eptp < frame_count part.old.memory }
    requires made { LastIsMade (view part.old.memory eptp cr3) part.old.noted made.old }
    ensures answer { result ≡ view_byte (view part.old.memory eptp cr3) at.0 access }
    ensures account { part.new.noted
        ≡ account_after_byte noted_rule (view part.old.memory eptp cr3) access at.0 part.old.noted }
    ensures made { LastIsMade (view part.new.memory eptp cr3) part.new.noted made.new }
    ensures same { part.new.memory ≡ part.old.memory }
    ensures given { part.new.given ≡ part.old.given }
    ensures began { part.new.began ≡ part.old.began }
{
    match place(part, eptp, cr3, made, at, access) {
        Some(place) => match part.read_byte(place) {
            Ok(byte) => Ok(byte),
            Err(gap) => Err(BusStop::Missing(gap.frame)),
        },
        None => NestedBus::new(part, eptp, cr3).byte(at, access),
    }
}
