//! Bytes stored one by one.

ghost use Rattle.std.specs.Prelude.{◌≡◌, ◌<◌, [], ◌∷◌, Ok, Err, IfOk, IfErr, OnOk, IsTrue, length, slice_index};
ghost use Rattle.sb_memory.specs.Physical.{frame_count};
ghost use Rattle.sb_memory.specs.declared.address.Access.TheVariants.{Write};
ghost use Rattle.sb_bus.specs.Access.{IsSize, byte_for, bytes_from, store_answer};
ghost use Rattle.sb_walks.specs.Entry.{frame_in};
ghost use Rattle.sb_walks.specs.Ept.{is_eptp};
ghost use Rattle.sb_agree.specs.Noted.{noted_rule};
ghost use Rattle.sb_nested.specs.View.{view, view_byte};
ghost use Rattle.sb_nested.specs.Store.{AllHeld, account_after_byte, account_after_load, after_bytes_stored, after_writes, bytes_stored, put_value, store_place};
ghost use Rattle.sb_copy_bus.specs.MadeWalk.{LastIsMade};

use crate::walk::{MadeWalk, place};
use sb_bus::{BusStop, ByteSource};
use sb_memory::{Access, Linear, Phys, PhysAddr};
use sb_nested::NestedBus;
use sb_partial::Partial;

/// Puts the lowest bytes of a value at these places, the lowest first.
#[tactic(auto, using(sb_nested::proofs::Stores::held_after, sb_nested::proofs::Stores::frames_after))]
fn put(part: &mut Partial, places: &[PhysAddr], value: u64)
    requires { AllHeld part.old.memory places.now }
    ensures stored { part.new.memory ≡ put_value part.old.memory places.now value }
    ensures account { part.new.noted ≡ after_writes noted_rule part.old.memory places.now value part.old.noted }
    ensures frames { frame_count part.new.memory ≡ frame_count part.old.memory }
    ensures given { part.new.given ≡ part.old.given }
    ensures began { part.new.began ≡ part.old.began }
{
    if let Some((first, rest)) = places.split_first() {
        let _ = part.write_byte(*first, (value % 256) as u8);
        put(part, rest, value / 256);
    }
}

/// Where the byte of a store leads. The byte is read too, so that its frame is known to be there.
#[tactic(auto, using(crate::proofs::Again::none_made, crate::proofs::Again::byte_again, sb_memory::proofs::Accounts::after_reads_append), unfolding(sb_nested::specs::Store::store_place, sb_nested::specs::View::view_byte, sb_nested::specs::View::byte_calls))]
fn store_place(
    part: &mut Partial,
    eptp: u64,
    cr3: u64,
    made: &mut Option<MadeWalk>,
    at: Linear,
) -> Result<PhysAddr, BusStop>
    requires eptp { IsTrue (is_eptp eptp) }
    requires root { frame_in eptp < frame_count part.old.memory }
    requires made { LastIsMade (view part.old.memory eptp cr3) part.old.noted made.old }
    ensures answer { result ≡ store_place (view part.old.memory eptp cr3) at.0 }
    ensures byte { IfOk result (λ place. view_byte (view part.old.memory eptp cr3) at.0 Write
        ≡ Ok (slice_index part.old.memory.bytes place.0)) }
    ensures stop { IfErr result (λ stop. view_byte (view part.old.memory eptp cr3) at.0 Write ≡ Err stop) }
    ensures held { IfOk result (λ place. AllHeld part.old.memory (place ∷ [])) }
    ensures same { part.new.memory ≡ part.old.memory }
    ensures account { part.new.noted ≡ account_after_byte noted_rule (view part.old.memory eptp cr3) Write at.0 part.old.noted }
    ensures made { LastIsMade (view part.new.memory eptp cr3) part.new.noted made.new }
    ensures given { part.new.given ≡ part.old.given }
    ensures began { part.new.began ≡ part.old.began }
{
    match place(part, eptp, cr3, made, at, Access::Write) {
        Some(place) => match part.read_byte(place) {
            Ok(_) => Ok(place),
            Err(gap) => Err(BusStop::Missing(gap.frame)),
        },
        None => match NestedBus::new(part, eptp, cr3).byte(at, Access::Write) {
            Ok(_) => unreachable!(),
            Err(stop) => Err(stop),
        },
    }
}

/// Where the bytes of a store lead, from an address upwards. The bytes are read too.
#[tactic(auto, using(sb_nested::proofs::Stores::places_none, sb_nested::proofs::Stores::places_stop, sb_nested::proofs::Stores::places_stop_later, sb_nested::proofs::Stores::places_more, sb_nested::proofs::Loads::load_calls_none, sb_nested::proofs::Loads::load_account_stop, sb_nested::proofs::Loads::load_account_more))]
fn store_places(
    part: &mut Partial,
    eptp: u64,
    cr3: u64,
    made: &mut Option<MadeWalk>,
    at: Linear,
    into: &mut [PhysAddr],
) -> Result<(), BusStop>
    requires eptp { IsTrue (is_eptp eptp) }
    requires root { frame_in eptp < frame_count part.old.memory }
    requires made { LastIsMade (view part.old.memory eptp cr3) part.old.noted made.old }
    ensures ok { OnOk result (bytes_from (store_place (view part.old.memory eptp cr3)) at.0 (length into.old) ≡ Ok into.new) }
    ensures err { IfErr result (λ stop.
        bytes_from (store_place (view part.old.memory eptp cr3)) at.0 (length into.old) ≡ Err stop) }
    ensures held { OnOk result (AllHeld part.old.memory into.new) }
    ensures same { part.new.memory ≡ part.old.memory }
    ensures account { part.new.noted
        ≡ account_after_load noted_rule (view part.old.memory eptp cr3) Write at.0 (length into.old) part.old.noted }
    ensures made { LastIsMade (view part.new.memory eptp cr3) part.new.noted made.new }
    ensures given { part.new.given ≡ part.old.given }
    ensures began { part.new.began ≡ part.old.began }
{
    if let Some((first, rest)) = into.split_first_mut() {
        *first = store_place(part, eptp, cr3, made, at)?;
        store_places(part, eptp, cr3, made, at.further(1), rest)?;
    }
    Ok(())
}

/// Puts the lowest bytes of a value at an address, one by one. Each of them is read before the first is written.
#[tactic(auto, using(crate::proofs::Again::none_made, sb_nested::proofs::Writing::store_answered))]
pub fn store_bytes(
    part: &mut Partial,
    eptp: u64,
    cr3: u64,
    made: &mut Option<MadeWalk>,
    at: Linear,
    size: u8,
    value: u64,
) -> Result<(), BusStop>
    requires eptp { IsTrue (is_eptp eptp) }
    requires root { frame_in eptp < frame_count part.old.memory }
    requires made { LastIsMade (view part.old.memory eptp cr3) part.old.noted made.old }
    requires size { IsSize size }
    ensures answer { result ≡ store_answer (byte_for (view_byte (view part.old.memory eptp cr3)) Write) at.0 size }
    ensures stored { part.new.memory ≡ bytes_stored (view part.old.memory eptp cr3) at.0 size value }
    ensures stopped { IfErr result (λ stop. part.new.memory ≡ part.old.memory) }
    ensures account { part.new.noted
        ≡ after_bytes_stored noted_rule (view part.old.memory eptp cr3) at.0 size value part.old.noted }
    ensures root { frame_in eptp < frame_count part.new.memory }
    ensures made { LastIsMade (view part.new.memory eptp cr3) part.new.noted made.new }
    ensures given { part.new.given ≡ part.old.given }
    ensures began { part.new.began ≡ part.old.began }
{
    let mut places = [PhysAddr(0); 8];
    let places = &mut places[..usize::from(size)];
    store_places(part, eptp, cr3, made, at, places)?;
    // a byte may be one of the tables
    *made = None;
    put(part, places, value);
    Ok(())
}
