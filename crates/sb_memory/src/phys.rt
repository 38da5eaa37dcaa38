//! What every physical memory is, whatever keeps it.

use crate::address::{Missing, PhysAddr};

/// Physical memory: a list of bytes in frames of 4,096, of which some frames may not be there.
///
/// Numbers are little-endian. A place lies below `frames() * 4096`, and the place of a word is a multiple of 8. A call at
/// a frame that is not there answers `Missing` and changes no byte.
///
/// Beside this meaning a memory has an account of the calls that it got, by a rule of its own: one that is all there keeps
/// nothing, one that holds copies notes which words were read. So code that is generic over the memory says by the rule
/// which calls it makes, in which order.
pub trait Phys {
    ghost use Rattle.std.specs.Prelude.{◌≡◌};
    ghost use Rattle.sb_memory.specs.Physical.{Physical, IsPhysical, IsPlace, IsWordPlace, frame_count};
    ghost use Rattle.sb_memory.specs.Accounts.{PhysCall, ReadByte, ReadWord, WriteByte, WriteWord};
    ghost use Rattle.sb_memory.specs.Reading.{byte_read, word_read, write_answer, byte_written, word_written};

    /// The type of what a memory notes of the calls that it gets, such as the words that they read. It is no part of the
    /// meaning, and changes at a refused call too.
    ghost Account: { Type 0 };

    /// The type of what no call changes, such as which memory an implementation has borrowed.
    ghost Kept: { Type 0 };

    /// The bytes, and which frames are there.
    ghost meaning: { Self → Physical };

    ghost account: { Self → Account };

    ghost kept: { Self → Kept };

    /// The account after a call, from the call, the meaning at entry and the account at entry.
    ghost rule: { PhysCall → Physical → Account → Account };

    /// The number of frames.
    fn frames(&self) -> u32
        ensures count { result ≡ frame_count (meaning self.now) }
        ensures sound { IsPhysical (meaning self.now) };

    /// The byte at a place.
    fn read_byte(&mut self, at: PhysAddr) -> Result<u8, Missing>
        requires { IsPlace (meaning self.old) at.0 }
        ensures answer { result ≡ byte_read (meaning self.old) at.0 }
        ensures same { meaning self.new ≡ meaning self.old }
        ensures account { account self.new ≡ rule (ReadByte at.0) (meaning self.old) (account self.old) }
        ensures kept { kept self.new ≡ kept self.old };

    /// The word at a place.
    fn read_word(&mut self, at: PhysAddr) -> Result<u64, Missing>
        requires { IsWordPlace (meaning self.old) at.0 }
        ensures answer { result ≡ word_read (meaning self.old) at.0 }
        ensures same { meaning self.new ≡ meaning self.old }
        ensures account { account self.new ≡ rule (ReadWord at.0) (meaning self.old) (account self.old) }
        ensures kept { kept self.new ≡ kept self.old };

    /// Puts a byte at a place.
    fn write_byte(&mut self, at: PhysAddr, value: u8) -> Result<(), Missing>
        requires { IsPlace (meaning self.old) at.0 }
        ensures answer { result ≡ write_answer (meaning self.old) at.0 }
        ensures written { meaning self.new ≡ byte_written (meaning self.old) at.0 value }
        ensures account { account self.new ≡ rule (WriteByte at.0 value) (meaning self.old) (account self.old) }
        ensures kept { kept self.new ≡ kept self.old };

    /// Puts a word at a place.
    fn write_word(&mut self, at: PhysAddr, value: u64) -> Result<(), Missing>
        requires { IsWordPlace (meaning self.old) at.0 }
        ensures answer { result ≡ write_answer (meaning self.old) at.0 }
        ensures written { meaning self.new ≡ word_written (meaning self.old) at.0 value }
        ensures account { account self.new ≡ rule (WriteWord at.0 value) (meaning self.old) (account self.old) }
        ensures kept { kept self.new ≡ kept self.old };
}
