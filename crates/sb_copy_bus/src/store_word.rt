//! A whole word stored.

ghost use Rattle.std.specs.Prelude.{◌≡◌, ◌%◌, ◌<◌, IsTrue};
ghost use Rattle.sb_memory.specs.Physical.{frame_count};
ghost use Rattle.sb_memory.specs.declared.address.Access.TheVariants.{Write};
ghost use Rattle.sb_bus.specs.Access.{byte_for, store_answer, where_stored};
ghost use Rattle.sb_walks.specs.Entry.{frame_in};
ghost use Rattle.sb_walks.specs.Ept.{is_eptp};
ghost use Rattle.sb_agree.specs.Noted.{noted_rule};
ghost use Rattle.sb_nested.specs.View.{view, view_byte};
ghost use Rattle.sb_nested.specs.Store.{store_rule, view_stored};
ghost use Rattle.sb_copy_bus.specs.MadeWalk.{LastIsMade};

use crate::walk::{MadeWalk, place};
use sb_bus::{Bus, BusStop};
use sb_memory::{Access, Linear, Phys};
use sb_nested::NestedBus;
use sb_partial::Partial;

/// Puts a word at an address that is a multiple of 8. Its bytes lie in one page, so that one walk tells where each of them
/// leads, and none of them is read.
#[tactic(auto, using(crate::proofs::Stores::word_noted, crate::proofs::Stores::word_put, crate::proofs::Stores::word_told, crate::proofs::Stores::word_again, crate::proofs::Stores::word_aligned, sb_nested::proofs::WholeWord::word_unwritten, sb_nested::proofs::Stores::frames_after_word, crate::proofs::Again::none_made), unfolding(sb_nested::specs::Store::view_rule))]
pub fn store_word(
    part: &mut Partial,
    eptp: u64,
    cr3: u64,
    made: &mut Option<MadeWalk>,
    at: Linear,
    word: u64,
) -> Result<(), BusStop>
    requires eptp { IsTrue (is_eptp eptp) }
    requires root { frame_in eptp < frame_count part.old.memory }
    requires made { LastIsMade (view part.old.memory eptp cr3) part.old.noted made.old }
    requires aligned { at.0 % 8 ≡ 0 }
    ensures answer { result ≡ store_answer (byte_for (view_byte (view part.old.memory eptp cr3)) Write) at.0 8 }
    ensures written { view part.new.memory eptp cr3
        ≡ where_stored result (view_stored (view part.old.memory eptp cr3) at.0 8 word) (view part.old.memory eptp cr3) }
    ensures account { part.new.noted ≡ store_rule noted_rule (view part.old.memory eptp cr3) at.0 8 word part.old.noted }
    ensures root { frame_in eptp < frame_count part.new.memory }
    ensures made { LastIsMade (view part.new.memory eptp cr3) part.new.noted made.new }
    ensures given { part.new.given ≡ part.old.given }
    ensures began { part.new.began ≡ part.old.began }
{
    match place(part, eptp, cr3, made, at, Access::Write) {
        Some(place) => {
            // the word may be one of the tables
            *made = None;
            match part.write_word(place, word) {
                Ok(()) => Ok(()),
                Err(gap) => Err(BusStop::Missing(gap.frame)),
            }
        }
        None => NestedBus::new(part, eptp, cr3).store(at, 8, word),
    }
}
