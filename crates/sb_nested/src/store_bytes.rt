//! Bytes written one by one through the nested walk.

ghost use Rattle.std.specs.Prelude.{◌≡◌, ◌≤◌, ◌<◌, ◌+◌, ◌++◌, ◌^◌, Ok, IfOk, OnOk, OnErr, IfErr, length, slice_index, [], ◌∷◌, Err};
ghost use Rattle.sb_memory.specs.declared.address.Access.TheVariants.{Write};
ghost use Rattle.sb_bus.specs.Access.{IsSize, byte_for, bytes_from, store_answer};
ghost use Rattle.sb_nested.specs.View.{view_byte, with_memory};
ghost use Rattle.sb_nested.specs.Store.{AllHeld, account_after_byte, account_after_load, after_bytes_stored, after_writes, bytes_stored, put_value, store_place};

use crate::walk::Walk;
use sb_bus::BusStop;
use sb_memory::{Access, Linear, PhysAddr};

/// Puts the lowest bytes of a value at these places, the lowest first.
#[tactic(auto, using(crate::proofs::Stores::held_after))]
fn put<W: Walk>(walk: &mut W, places: &[PhysAddr], value: u64)
    requires { AllHeld (W.view walk.old).physical places.now }
    ensures stored { W.view walk.new ≡ with_memory (W.view walk.old) (put_value (W.view walk.old).physical places.now value) }
    ensures account { W.account walk.new ≡ after_writes W.rule (W.view walk.old).physical places.now value (W.account walk.old) }
    ensures kept { W.kept walk.new ≡ W.kept walk.old }
{
    if let Some((first, rest)) = places.split_first() {
        walk.write_byte(*first, (value % 256) as u8);
        put(walk, rest, value / 256);
    }
}

/// Where the byte of a store leads. The byte is read too, so that its frame is known to be there.
#[tactic(auto, using(sb_memory::proofs::Accounts::after_reads_append), unfolding(crate::specs::Store::store_place, crate::specs::View::view_byte, crate::specs::View::byte_calls, crate::specs::View::walk_place))]
fn store_place<W: Walk>(walk: &mut W, at: Linear) -> Result<PhysAddr, BusStop>
    ensures answer { result ≡ store_place (W.view walk.old) at.0 }
    ensures byte { IfOk result (λ place. view_byte (W.view walk.old) at.0 Write
        ≡ Ok (slice_index (W.view walk.old).physical.bytes place.0)) }
    ensures stop { IfErr result (λ stop. view_byte (W.view walk.old) at.0 Write ≡ Err stop) }
    ensures held { IfOk result (λ place. AllHeld (W.view walk.old).physical (place ∷ [])) }
    ensures same { W.view walk.new ≡ W.view walk.old }
    ensures account { W.account walk.new ≡ account_after_byte W.rule (W.view walk.old) Write at.0 (W.account walk.old) }
    ensures kept { W.kept walk.new ≡ W.kept walk.old }
{
    let place = walk.place(at, Access::Write)?;
    walk.read_byte(place)?;
    Ok(place)
}

/// Where the bytes of a store lead, from an address upwards. The bytes are read too.
#[tactic(auto, using(crate::proofs::Stores::places_none, crate::proofs::Stores::places_stop, crate::proofs::Stores::places_stop_later, crate::proofs::Stores::places_more, crate::proofs::Loads::load_calls_none, crate::proofs::Loads::load_account_stop, crate::proofs::Loads::load_account_more))]
fn store_places<W: Walk>(walk: &mut W, at: Linear, into: &mut [PhysAddr]) -> Result<(), BusStop>
    ensures ok { OnOk result (bytes_from (store_place (W.view walk.old)) at.0 (length into.old) ≡ Ok into.new) }
    ensures err { IfErr result (λ stop. bytes_from (store_place (W.view walk.old)) at.0 (length into.old) ≡ Err stop) }
    ensures held { OnOk result (AllHeld (W.view walk.old).physical into.new) }
    ensures same { W.view walk.new ≡ W.view walk.old }
    ensures account { W.account walk.new
        ≡ account_after_load W.rule (W.view walk.old) Write at.0 (length into.old) (W.account walk.old) }
    ensures kept { W.kept walk.new ≡ W.kept walk.old }
{
    if let Some((first, rest)) = into.split_first_mut() {
        *first = store_place(walk, at)?;
        store_places(walk, at.further(1), rest)?;
    }
    Ok(())
}

/// Puts the lowest bytes of a value at an address, one by one. Each of them is read before the first is written.
#[tactic(auto, using(crate::proofs::Writing::store_answered))]
pub fn store_bytes<W: Walk>(walk: &mut W, at: Linear, size: u8, value: u64) -> Result<(), BusStop>
    requires size { IsSize size }
    ensures answer { result ≡ store_answer (byte_for (view_byte (W.view walk.old)) Write) at.0 size }
    ensures stored { W.view walk.new ≡ with_memory (W.view walk.old) (bytes_stored (W.view walk.old) at.0 size value) }
    ensures stopped { IfErr result (λ stop. W.view walk.new ≡ W.view walk.old) }
    ensures account { W.account walk.new ≡ after_bytes_stored W.rule (W.view walk.old) at.0 size value (W.account walk.old) }
    ensures kept { W.kept walk.new ≡ W.kept walk.old }
{
    let mut places = [PhysAddr(0); 8];
    let places = &mut places[..usize::from(size)];
    store_places(walk, at, places)?;
    put(walk, places, value);
    Ok(())
}
