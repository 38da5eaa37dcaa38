//! The copy of one frame.

ghost use Rattle.std.specs.Prelude.{◌≡◌, ℕ, ◌+◌, ◌<◌, ◌≤◌, length, slice_index, slice_set, slice_range, get_or, set, false, IfOk};
ghost use Rattle.sb_memory.specs.Words.{word_at, put_word, put_bytes};
ghost use Rattle.sb_memory.specs.declared.page.TheConstants.{PAGE_SIZE};
ghost use Rattle.sb_partial.specs.CopiedFrame.{IsWhole, bytes_restored, new_copy, no_flags};

use sb_memory::{PAGE_SIZE, put_bytes, put_word, word};
use std::alloc::{AllocError, Global};
use std::marker::Model;

/// How many words of 8 bytes a frame has.
pub const FRAME_WORDS: u64 = PAGE_SIZE / 8;

/// The bytes of a frame, as they were given and with what was written since, and for each of its words whether it is noted as
/// read and as written.
#[derive(Drop)]
pub struct FrameCopy {
    given: Vec<u8>,
    bytes: Vec<u8>,
    read: Vec<bool>,
    written: Vec<bool>,
}

impl Model for FrameCopy {
    ghost use Rattle.sb_partial.specs.CopiedFrame.{CopiedFrame, IsWhole};

    ghost Value = { CopiedFrame };

    ghost view = { λ copy. record {
      given = copy.given.items;
      bytes = copy.bytes.items;
      read = copy.read.items;
      written = copy.written.items;
    } };

    ghost invariant = { λ copy. IsWhole (record {
      given = copy.given.items;
      bytes = copy.bytes.items;
      read = copy.read.items;
      written = copy.written.items;
    }) };
}

/// What a `u8` is, for contracts that speak of numbers.
fn each_is_a_byte(bytes: &[u8])
    ensures { (place : ℕ) → get_or bytes.now place 0 < 256 }
{}

/// So many flags, none of which is set.
#[tactic(auto, unfolding(crate::specs::CopiedFrame::no_flags))]
fn no_flags(alloc: Global, words: usize) -> Result<Vec<bool>, AllocError>
    ensures flags { IfOk result (λ flags. flags.items ≡ no_flags words) }
    ensures count { IfOk result (λ flags. length flags.items ≡ words) }
{
    vec![in alloc; false; words]
}

impl FrameCopy {
    /// A copy with these bytes.
    pub fn new(alloc: Global, bytes: &[u8]) -> Result<FrameCopy, AllocError>
        requires { length bytes.now ≡ PAGE_SIZE }
        ensures copy { IfOk result (λ copy. copy ≡ new_copy bytes.now) }
        ensures whole { IfOk result (λ copy. IsWhole copy) }
    {
        Ok(FrameCopy {
            given: Vec::from_slice(alloc, bytes)?,
            bytes: Vec::from_slice(alloc, bytes)?,
            read: no_flags(alloc, FRAME_WORDS as usize)?,
            written: no_flags(alloc, FRAME_WORDS as usize)?,
        })
    }

    /// Takes other bytes in place of those that it has. What is noted stays.
    pub fn replace(&mut self, bytes: &[u8])
        requires { length bytes.now ≡ PAGE_SIZE }
        ensures copy { self.new ≡ record self.old { given = bytes.now; bytes = bytes.now } }
        ensures whole { IsWhole self.new }
    {
        self.given.copy_from_slice(bytes);
        self.bytes.copy_from_slice(bytes);
    }

    /// The byte at a place of the frame.
    pub fn byte(&self, place: usize) -> u8
        requires { place < PAGE_SIZE }
        ensures { result ≡ slice_index self.now.bytes place }
    {
        self.bytes[place]
    }

    /// The word at a place of the frame.
    pub fn word(&self, place: usize) -> u64
        requires { place + 8 ≤ PAGE_SIZE }
        ensures { result ≡ word_at self.now.bytes place }
    {
        word(&self.bytes, place)
    }

    /// The word at a place of the frame, as it was given.
    pub fn given_word(&self, place: usize) -> u64
        requires { place + 8 ≤ PAGE_SIZE }
        ensures { result ≡ word_at self.now.given place }
    {
        word(&self.given, place)
    }

    /// Puts a byte at a place of the frame.
    pub fn set_byte(&mut self, place: usize, byte: u8)
        requires { place < PAGE_SIZE }
        ensures copy { self.new ≡ record self.old { bytes = slice_set self.old.bytes place byte } }
        ensures whole { IsWhole self.new }
    {
        self.bytes[place] = byte;
    }

    /// Puts a word at a place of the frame.
    pub fn set_word(&mut self, place: usize, word: u64)
        requires { place + 8 ≤ PAGE_SIZE }
        ensures copy { self.new ≡ record self.old { bytes = put_word self.old.bytes place word } }
        ensures whole { IsWhole self.new }
    {
        put_word(&mut self.bytes, place, word);
        each_is_a_byte(&self.bytes);
    }

    /// Puts the 8 bytes that were given at a place of the frame back there.
    pub fn restore_word(&mut self, place: usize)
        requires { place + 8 ≤ PAGE_SIZE }
        ensures copy { self.new ≡ record self.old { bytes = bytes_restored self.old.given self.old.bytes place } }
        ensures whole { IsWhole self.new }
    {
        put_bytes(&mut self.bytes, place, &self.given[place..place + 8]);
        each_is_a_byte(&self.bytes);
    }

    /// Whether a word of the frame is noted as read.
    pub fn is_read(&self, word: usize) -> bool
        requires { word < FRAME_WORDS }
        ensures { result ≡ get_or self.now.read word false }
    {
        self.read[word]
    }

    /// Whether a word of the frame is noted as written.
    pub fn is_written(&self, word: usize) -> bool
        requires { word < FRAME_WORDS }
        ensures { result ≡ get_or self.now.written word false }
    {
        self.written[word]
    }

    /// Notes whether a word of the frame was read.
    pub fn set_read(&mut self, word: usize, read: bool)
        requires { word < FRAME_WORDS }
        ensures copy { self.new ≡ record self.old { read = set self.old.read word read } }
        ensures whole { IsWhole self.new }
    {
        self.read[word] = read;
    }

    /// Notes whether a word of the frame was written.
    pub fn set_written(&mut self, word: usize, written: bool)
        requires { word < FRAME_WORDS }
        ensures copy { self.new ≡ record self.old { written = set self.old.written word written } }
        ensures whole { IsWhole self.new }
    {
        self.written[word] = written;
    }
}
