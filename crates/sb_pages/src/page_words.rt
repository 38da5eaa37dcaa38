//! Words of 8 bytes and other numbers in the bytes of a page, the lowest byte first.

ghost use Rattle.std.specs.Prelude.{◌≡◌, ◌+◌, ◌*◌, ◌<◌, ◌≤◌, length};
ghost use Rattle.sb_memory.specs.Words.{put_word, put_bytes};
ghost use Rattle.sb_memory.specs.declared.page.TheConstants.{PAGE_SIZE};
ghost use Rattle.sb_pages.specs.PageWords.{put_words, number_at, put_number};

use crate::page::PageBytes;
use byteorder::{ByteOrder, LittleEndian};
use sb_memory::word;

/// How many bytes a word has.
const WORD_SIZE: usize = 8;

// ---- numbers that stand in a page

/// A byte as a number.
#[tactic(auto, unfolding(crate::specs::PageWords::number_at))]
fn byte_number(bytes: &[u8], place: usize) -> u64
    requires { place + 1 ≤ length bytes.now }
    ensures { result ≡ number_at bytes.now place 1 }
{
    u64::from(bytes[place])
}

/// The number of 4 bytes.
#[tactic(auto, unfolding(crate::specs::PageWords::number_at))]
fn doubleword_number(bytes: &[u8], place: usize) -> u64
    requires { place + 4 ≤ length bytes.now }
    ensures { result ≡ number_at bytes.now place 4 }
{
    u64::from(LittleEndian::read_u32(&bytes[place..]))
}

/// The number of 8 bytes.
#[tactic(auto, unfolding(crate::specs::PageWords::number_at, sb_memory::specs::Words::word_at))]
fn word_number(bytes: &[u8], place: usize) -> u64
    requires { place + 8 ≤ length bytes.now }
    ensures { result ≡ number_at bytes.now place 8 }
{
    word(bytes, place)
}

/// The number of so many bytes.
#[tactic(auto, using(crate::proofs::Numbers::number_behind), unfolding(crate::specs::PageWords::number_at))]
fn bytes_number(bytes: &[u8], place: usize, size: u8) -> u64
    requires some { 0 < size }
    requires few { size ≤ 8 }
    requires within { place + size ≤ length bytes.now }
    ensures { result ≡ number_at bytes.now place size }
{
    let (_, behind) = bytes.split_at(place);
    LittleEndian::read_uint(behind, usize::from(size))
}

/// The number of so many bytes at a place. Instructions load 1, 4 and 8, so these have ways of their own.
pub fn number_at(bytes: &[u8], place: usize, size: u8) -> u64
    requires some { 0 < size }
    requires few { size ≤ 8 }
    requires within { place + size ≤ length bytes.now }
    ensures { result ≡ number_at bytes.now place size }
{
    match size {
        1 => byte_number(bytes, place),
        4 => doubleword_number(bytes, place),
        8 => word_number(bytes, place),
        _ => bytes_number(bytes, place, size),
    }
}

// ---- numbers that are put into a page

/// Puts bytes at a place.
#[tactic(auto, using(crate::proofs::WordBytes::sets_more), unfolding(sb_memory::specs::Words::put_bytes))]
fn put_bytes(bytes: &mut PageBytes, place: usize, others: &[u8])
    requires size { length bytes.old ≡ PAGE_SIZE }
    requires within { place + length others.now ≤ PAGE_SIZE }
    ensures put { bytes.new ≡ put_bytes bytes.old place others.now }
    ensures size { length bytes.new ≡ PAGE_SIZE }
{
    for (index, byte) in others.iter().enumerate() {
        bytes.set(place + index, *byte);
    }
}

/// Puts a word at a place.
#[tactic(auto, using(crate::proofs::WordBytes::sets_more), unfolding(sb_memory::specs::Words::put_word))]
pub fn put_word(bytes: &mut PageBytes, place: usize, word: u64)
    requires size { length bytes.old ≡ PAGE_SIZE }
    requires within { place + 8 ≤ PAGE_SIZE }
    ensures put { bytes.new ≡ put_word bytes.old place word }
    ensures size { length bytes.new ≡ PAGE_SIZE }
{
    let lowest_first = word.to_le_bytes();
    for (index, byte) in lowest_first.iter().enumerate() {
        bytes.set(place + index, *byte);
    }
}

/// Puts so many of the lowest bytes of a number at a place.
#[tactic(auto, using(crate::proofs::Numbers::low_taken, crate::proofs::Numbers::length_low), unfolding(crate::specs::PageWords::put_number, sb_memory::specs::Words::put_bytes))]
pub fn put_number(bytes: &mut PageBytes, place: usize, size: u8, number: u64)
    requires whole { length bytes.old ≡ PAGE_SIZE }
    requires few { size ≤ 8 }
    requires within { place + size ≤ PAGE_SIZE }
    ensures put { bytes.new ≡ put_number bytes.old place size number }
    ensures size { length bytes.new ≡ PAGE_SIZE }
{
    let lowest_first = number.to_le_bytes();
    let (lowest, _) = lowest_first.split_at(usize::from(size));
    put_bytes(bytes, place, lowest);
}

/// Puts words one after another, from a place on.
#[tactic(auto, using(crate::proofs::WordBytes::words_more))]
pub fn put_words(bytes: &mut PageBytes, place: usize, words: &[u64])
    requires size { length bytes.old ≡ PAGE_SIZE }
    requires within { place + 8 * length words.now ≤ PAGE_SIZE }
    ensures put { bytes.new ≡ put_words bytes.old place words.now }
    ensures size { length bytes.new ≡ PAGE_SIZE }
{
    for (index, word) in words.iter().enumerate() {
        put_word(bytes, place + WORD_SIZE * index, *word);
    }
}
