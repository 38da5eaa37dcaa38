//! A whole word written through the nested walk.

ghost use Rattle.std.specs.Prelude.{◌≡◌, ◌*◌, ◌%◌, ◌≤◌, ◌<◌, IfErr};
ghost use Rattle.sb_memory.specs.Outcome.{done};
ghost use Rattle.sb_memory.specs.declared.address.Access.TheVariants.{Write};
ghost use Rattle.sb_bus.specs.Access.{byte_for, bytes_from, store_answer};
ghost use Rattle.sb_nested.specs.View.{view_byte, walk_place, with_memory};
ghost use Rattle.sb_nested.specs.Store.{account_after_look, after_word_stored, word_stored};

use crate::walk::Walk;
use sb_bus::BusStop;
use sb_memory::{Access, Linear};

/// Looks up bytes from an address upwards.
#[tactic(auto, using(crate::proofs::WholeWord::look_none, crate::proofs::WholeWord::look_stop, crate::proofs::WholeWord::look_more, crate::proofs::WholeWord::look_calls_none, crate::proofs::WholeWord::look_account_stop, crate::proofs::WholeWord::look_account_more))]
fn look_on<W: Walk>(walk: &mut W, at: Linear, count: u8) -> Result<(), BusStop>
    ensures answer { result ≡ done (bytes_from (walk_place (W.view walk.old) Write) at.0 count) }
    ensures same { W.view walk.new ≡ W.view walk.old }
    ensures account { W.account walk.new ≡ account_after_look W.rule (W.view walk.old) at.0 count (W.account walk.old) }
    ensures kept { W.kept walk.new ≡ W.kept walk.old }
{
    if count == 0 {
        return Ok(());
    }
    walk.place(at, Access::Write)?;
    look_on(walk, at.further(1), count - 1)
}

/// Puts a word at an address that is a multiple of 8. Each of its bytes is looked up, and none is read.
#[tactic(auto, using(crate::proofs::WholeWord::stop_answered, crate::proofs::WholeWord::stop_unwritten, crate::proofs::WholeWord::stop_uncounted, crate::proofs::WholeWord::place_led, crate::proofs::WholeWord::rest_leads, crate::proofs::WholeWord::whole_answered, crate::proofs::WholeWord::word_unwritten, crate::proofs::WholeWord::look_account_stop, crate::proofs::WholeWord::look_account_more))]
pub fn store_word<W: Walk>(walk: &mut W, at: Linear, word: u64) -> Result<(), BusStop>
    requires aligned { at.0 % 8 ≡ 0 }
    ensures answer { result ≡ store_answer (byte_for (view_byte (W.view walk.old)) Write) at.0 8 }
    ensures stored { W.view walk.new ≡ with_memory (W.view walk.old) (word_stored (W.view walk.old) at.0 word) }
    ensures stopped { IfErr result (λ stop. W.view walk.new ≡ W.view walk.old) }
    ensures account { W.account walk.new ≡ after_word_stored W.rule (W.view walk.old) at.0 word (W.account walk.old) }
    ensures kept { W.kept walk.new ≡ W.kept walk.old }
{
    let place = walk.place(at, Access::Write)?;
    look_on(walk, at.further(1), 7)?;
    walk.write_word(place, word)
}
