//! Words and runs of bytes in a list of bytes.

ghost use Rattle.std.specs.Prelude.{◌≡◌, ◌+◌, ◌≤◌, length};
ghost use Rattle.sb_memory.specs.Words.{word_at, put_word, put_bytes, zeros};

use byteorder::{ByteOrder, LittleEndian};

/// The word at a place, its lowest byte first.
#[tactic(auto, unfolding(crate::specs::Words::word_at))]
pub fn word(bytes: &[u8], place: usize) -> u64
    requires { place + 8 ≤ length bytes.now }
    ensures { result ≡ word_at bytes.now place }
{
    LittleEndian::read_u64(&bytes[place..])
}

/// Puts a word at a place, its lowest byte first.
pub fn put_word(bytes: &mut [u8], place: usize, word: u64)
    requires { place + 8 ≤ length bytes.old }
    ensures { bytes.new ≡ put_word bytes.old place word }
{
    LittleEndian::write_u64(&mut bytes[place..place + 8], word);
}

/// Puts zeros at a place and after it.
#[tactic(auto, using(crate::proofs::Parts::put_mid_whole), unfolding(crate::specs::Words::put_bytes, crate::specs::Words::zeros))]
pub fn put_zeros(bytes: &mut [u8], place: usize, count: usize)
    requires { place + count ≤ length bytes.old }
    ensures { bytes.new ≡ put_bytes bytes.old place (zeros count) }
{
    bytes[place..place + count].fill(0);
}

/// Puts other bytes at a place.
#[tactic(auto, using(crate::proofs::Parts::put_mid_whole), unfolding(crate::specs::Words::put_bytes))]
pub fn put_bytes(bytes: &mut [u8], place: usize, others: &[u8])
    requires { place + length others.now ≤ length bytes.old }
    ensures { bytes.new ≡ put_bytes bytes.old place others.now }
{
    bytes[place..place + others.len()].copy_from_slice(others);
}
