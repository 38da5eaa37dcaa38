//! Numbers that are loaded byte by byte.

ghost use Rattle.std.specs.Prelude.{◌≡◌, ◌≤◌, ◌<◌, ◌^◌, IfOk};
ghost use Rattle.sb_bus.specs.Access.{byte_for, loaded_from};
ghost use Rattle.sb_bus.specs.Bytes.{account_after_bytes};

use crate::stop::BusStop;
use sb_memory::{Access, Linear};

/// What gives the bytes of which a loaded number is made.
///
/// Its ghost members are those of a bus, but that a byte alone is asked for.
pub trait ByteSource {
    ghost use Rattle.std.specs.Prelude.{◌≡◌, ℕ, Result};
    ghost use Rattle.sb_memory.specs.declared.address.Access.{Access};
    ghost use Rattle.sb_bus.specs.declared.stop.BusStop.{BusStop};

    /// The type of what the bytes answer by.
    ghost Meaning: { Type 0 };

    /// The type of what is noted of the bytes that were asked for.
    ghost Account: { Type 0 };

    /// The type of what no call changes.
    ghost Kept: { Type 0 };

    /// What the byte at an address gives for an access.
    ghost gives: { Meaning → ℕ → Access → Result ℕ BusStop };

    /// The account after a byte was asked for.
    ghost rule: { Meaning → Access → ℕ → Account → Account };

    ghost meaning: { Self → Meaning };

    ghost account: { Self → Account };

    ghost kept: { Self → Kept };

    /// The byte at an address, for an access.
    fn byte(&mut self, at: Linear, access: Access) -> Result<u8, BusStop>
        ensures answer { result ≡ gives (meaning self.old) at.0 access }
        ensures same { meaning self.new ≡ meaning self.old }
        ensures account { account self.new ≡ rule (meaning self.old) access at.0 (account self.old) }
        ensures kept { kept self.new ≡ kept self.old };
}

/// The number of `size` bytes from an address upwards, its lowest byte first.
///
/// # Errors
///
/// What the first byte that fails gives.
#[tactic(auto, using(crate::proofs::Loads::loaded_none, crate::proofs::Loads::loaded_stop, crate::proofs::Loads::loaded_stop_later, crate::proofs::Loads::loaded_more, crate::proofs::Loads::number_fits, crate::proofs::Loads::number_below, crate::proofs::Loads::account_none, crate::proofs::Loads::account_stop, crate::proofs::Loads::account_more))]
pub fn load_bytes<S: ByteSource>(
    source: &mut S,
    at: Linear,
    size: u8,
    access: Access,
) -> Result<u64, BusStop>
    requires size { size ≤ 8 }
    ensures answer { result ≡ loaded_from (byte_for (S.gives (S.meaning source.old)) access) at.0 size }
    ensures range { IfOk result (λ number. number < 256 ^ size) }
    ensures same { S.meaning source.new ≡ S.meaning source.old }
    ensures account { S.account source.new
        ≡ account_after_bytes (byte_for (S.gives (S.meaning source.old)) access) (S.rule (S.meaning source.old) access)
        at.0 size (S.account source.old) }
    ensures kept { S.kept source.new ≡ S.kept source.old }
{
    if size == 0 {
        return Ok(0);
    }
    let lowest = source.byte(at, access)?;
    let others = load_bytes(source, at.further(1), size - 1, access)?;
    Ok(u64::from(lowest) + 256 * others)
}
