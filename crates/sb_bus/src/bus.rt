//! What an instruction fetches, loads and stores through.

use crate::stop::BusStop;
use sb_memory::Linear;

/// Memory as an instruction sees it: for each linear address and access it gives a byte, a fault or a missing frame.
///
/// Bytes are tried from the address upwards, modulo 2^64. The first that fails is the answer, and then nothing of the
/// meaning changes. Sizes are 1, 4 and 8 bytes, and numbers are little-endian.
pub trait Bus {
    ghost use Rattle.std.specs.Prelude.{◌≡◌};
    ghost use Rattle.sb_memory.specs.declared.address.Access.TheVariants.{Read, Write, Fetch};
    ghost use Rattle.sb_bus.specs.Interface.{Interface, FetchByte, LoadBytes, LoadForWrite, StoreBytes};
    ghost use Rattle.sb_bus.specs.Access.{IsSize, byte_for, byte_for_write, loaded_from, store_answer, where_stored};

    /// The type of what the calls answer by. It may hold more than that, so that the rule of the account sees it.
    ghost Meaning: { Type 0 };

    /// The type of what a bus notes of the calls that it gets, such as the places that they read. It is no part of the
    /// meaning, and changes at a refused call too.
    ghost Account: { Type 0 };

    /// The type of what no call changes, such as which memory a bus has borrowed.
    ghost Kept: { Type 0 };

    /// What each byte gives, what a store leaves, and how a call changes the account.
    ghost interface: { Interface Meaning Account };

    ghost meaning: { Self → Meaning };

    ghost account: { Self → Account };

    ghost kept: { Self → Kept };

    /// A byte of an instruction.
    fn fetch(&mut self, at: Linear) -> Result<u8, BusStop>
        ensures answer { result ≡ interface.byte (meaning self.old) at.0 Fetch }
        ensures same { meaning self.new ≡ meaning self.old }
        ensures account { account self.new ≡ interface.rule (FetchByte at.0) (meaning self.old) (account self.old) }
        ensures kept { kept self.new ≡ kept self.old };

    /// A number that is only read.
    fn load(&mut self, at: Linear, size: u8) -> Result<u64, BusStop>
        requires { IsSize size }
        ensures answer { result ≡ loaded_from (byte_for (interface.byte (meaning self.old)) Read) at.0 size }
        ensures same { meaning self.new ≡ meaning self.old }
        ensures account { account self.new ≡ interface.rule (LoadBytes at.0 size) (meaning self.old) (account self.old) }
        ensures kept { kept self.new ≡ kept self.old };

    /// A number that is read and is to be written: each byte needs both rights.
    fn load_for_write(&mut self, at: Linear, size: u8) -> Result<u64, BusStop>
        requires { IsSize size }
        ensures answer { result ≡ loaded_from (byte_for_write (interface.byte (meaning self.old))) at.0 size }
        ensures same { meaning self.new ≡ meaning self.old }
        ensures account { account self.new ≡ interface.rule (LoadForWrite at.0 size) (meaning self.old) (account self.old) }
        ensures kept { kept self.new ≡ kept self.old };

    /// Writes the lowest `size` bytes of a number.
    fn store(&mut self, at: Linear, size: u8, value: u64) -> Result<(), BusStop>
        requires { IsSize size }
        ensures answer { result ≡ store_answer (byte_for (interface.byte (meaning self.old)) Write) at.0 size }
        ensures written { meaning self.new
            ≡ where_stored result (interface.stored (meaning self.old) at.0 size value) (meaning self.old) }
        ensures account { account self.new ≡ interface.rule (StoreBytes at.0 size value) (meaning self.old) (account self.old) }
        ensures kept { kept self.new ≡ kept self.old };
}
