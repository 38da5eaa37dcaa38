//! Physical memory as a nested walk reaches it.

use sb_bus::BusStop;
use sb_memory::{Access, Linear, PhysAddr};

/// Physical memory behind an EPT pointer, which leads to a table in it, and a CR3.
///
/// What the walk or the memory refuses is answered as an instruction meets it.
pub trait Walk {
    ghost use Rattle.std.specs.Prelude.{◌≡◌, ◌*◌, ◌%◌, ◌<◌, IfOk};
    ghost use Rattle.sb_memory.specs.declared.page.TheConstants.{PAGE_SIZE};
    ghost use Rattle.sb_memory.specs.Accounts.{PhysCall, ReadByte, WriteByte, WriteWord};
    ghost use Rattle.sb_memory.specs.Physical.{Physical, IsPlace, IsWordPlace, frame_count};
    ghost use Rattle.sb_memory.specs.Reading.{byte_read, byte_written, word_written, write_answer};
    ghost use Rattle.sb_nested.specs.View.{View, byte_answer, walk_place, with_memory, word_answer};
    ghost use Rattle.sb_nested.specs.Store.{account_after_walk};

    /// The type of what the memory notes of the calls that it gets.
    ghost Account: { Type 0 };

    /// The type of what no call changes.
    ghost Kept: { Type 0 };

    ghost view: { Self → View };

    ghost account: { Self → Account };

    ghost kept: { Self → Kept };

    /// The account after a call of the physical memory.
    ghost rule: { PhysCall → Physical → Account → Account };

    /// Where an address leads.
    fn place(&mut self, at: Linear, access: Access) -> Result<PhysAddr, BusStop>
        ensures answer { result ≡ walk_place (view self.old) access at.0 }
        ensures inside { IfOk result (λ place. place.0 < PAGE_SIZE * frame_count (view self.old).physical) }
        ensures offset { IfOk result (λ place. place.0 % PAGE_SIZE ≡ at.0 % PAGE_SIZE) }
        ensures same { view self.new ≡ view self.old }
        ensures account { account self.new ≡ account_after_walk rule (view self.old) access at.0 (account self.old) }
        ensures kept { kept self.new ≡ kept self.old };

    /// The byte at a place.
    fn read_byte(&mut self, place: PhysAddr) -> Result<u8, BusStop>
        requires { IsPlace (view self.old).physical place.0 }
        ensures answer { result ≡ byte_answer (byte_read (view self.old).physical place.0) }
        ensures same { view self.new ≡ view self.old }
        ensures account { account self.new ≡ rule (ReadByte place.0) (view self.old).physical (account self.old) }
        ensures kept { kept self.new ≡ kept self.old };

    /// Puts a byte at a place, if its frame is there.
    fn write_byte(&mut self, place: PhysAddr, byte: u8)
        requires { IsPlace (view self.old).physical place.0 }
        ensures written { view self.new ≡ with_memory (view self.old) (byte_written (view self.old).physical place.0 byte) }
        ensures account { account self.new ≡ rule (WriteByte place.0 byte) (view self.old).physical (account self.old) }
        ensures kept { kept self.new ≡ kept self.old };

    /// Puts a word at a place.
    fn write_word(&mut self, place: PhysAddr, word: u64) -> Result<(), BusStop>
        requires { IsWordPlace (view self.old).physical place.0 }
        ensures answer { result ≡ word_answer (write_answer (view self.old).physical place.0) }
        ensures written { view self.new ≡ with_memory (view self.old) (word_written (view self.old).physical place.0 word) }
        ensures account { account self.new ≡ rule (WriteWord place.0 word) (view self.old).physical (account self.old) }
        ensures kept { kept self.new ≡ kept self.old };
}
