//! The copies of all frames.

ghost use Rattle.std.specs.Prelude.{◌≡◌, ◌+◌, ◌*◌, ◌/◌, ◌<◌, ◌≤◌, length, get_or, set, slice_index, slice_set, slice_range, true, false, IfOk, IfErr};
ghost use Rattle.sb_memory.specs.Words.{word_at, put_word, put_bytes};
ghost use Rattle.sb_memory.specs.declared.page.TheConstants.{PAGE_SIZE};
ghost use Rattle.sb_partial.specs.declared.frame.TheConstants.{FRAME_WORDS};
ghost use Rattle.sb_partial.specs.CopiedFrame.{bytes_restored};
ghost use Rattle.sb_partial.specs.CopiedFrames.{IsSound, no_frames, true_count, with_frame};

use crate::frame::{FRAME_WORDS, FrameCopy};
use sb_memory::PAGE_SIZE;
use std::alloc::{AllocError, Global};
use std::marker::Model;

/// For each frame of a memory the copy of it, where there is one.
#[derive(Drop)]
pub struct FrameCopies {
    frames: Vec<Option<FrameCopy>>,
    count: usize,
}

impl Model for FrameCopies {
    ghost use Rattle.sb_partial.specs.CopiedFrames.{AreFrames, CopiedFrames, frames_in};

    ghost Value = { CopiedFrames };

    ghost view = { λ copies. frames_in copies.frames.items };

    ghost invariant = { λ copies. AreFrames copies.frames.items copies.count };
}

impl FrameCopies {
    /// So many frames, of none of which there is a copy.
    pub fn new(alloc: Global, frames: usize) -> Result<FrameCopies, AllocError>
        requires { frames ≤ 8192 }
        ensures copies { IfOk result (λ copies. copies ≡ no_frames frames) }
        ensures sound { IfOk result (λ copies. IsSound copies) }
    {
        let mut all = Vec::with_capacity(alloc, frames)?;
        for _ in 0..frames {
            all.push_reserved(None);
        }
        Ok(FrameCopies {
            frames: all,
            count: 0,
        })
    }

    /// The number of frames, with those of which there is no copy.
    pub fn frame_count(&self) -> usize
        ensures count { result ≡ length self.now.present }
        ensures sound { IsSound self.now }
    {
        self.frames.len()
    }

    /// The number of copies.
    pub fn copy_count(&self) -> usize
        ensures count { result ≡ true_count self.now.present }
        ensures sound { IsSound self.now }
    {
        self.count
    }

    /// Whether a frame is there.
    pub fn has_frame(&self, frame: usize) -> bool
        requires { frame < length self.now.present }
        ensures { result ≡ get_or self.now.present frame false }
    {
        self.frames[frame].is_some()
    }

    /// Puts the copy of a frame, which takes the place of an earlier one.
    pub fn give(&mut self, alloc: Global, frame: usize, bytes: &[u8]) -> Result<(), AllocError>
        requires frame { frame < length self.old.present }
        requires size { length bytes.now ≡ PAGE_SIZE }
        ensures given { IfOk result (λ _. self.new ≡ with_frame self.old frame bytes.now) }
        ensures refused { IfErr result (λ _. self.new ≡ self.old) }
        ensures sound { IsSound self.new }
    {
        match &mut self.frames[frame] {
            Some(copy) => {
                copy.replace(bytes);
                Ok(())
            }
            None => self.add(alloc, frame, bytes),
        }
    }

    /// Puts the first copy of a frame.
    fn add(&mut self, alloc: Global, frame: usize, bytes: &[u8]) -> Result<(), AllocError>
        requires frame { frame < length self.old.present }
        requires missing { get_or self.old.present frame false ≡ false }
        requires size { length bytes.now ≡ PAGE_SIZE }
        ensures given { IfOk result (λ _. self.new ≡ with_frame self.old frame bytes.now) }
        ensures refused { IfErr result (λ _. self.new ≡ self.old) }
        ensures sound { IsSound self.new }
    {
        let slot = &mut self.frames[frame];
        *slot = Some(FrameCopy::new(alloc, bytes)?);
        self.count += 1;
        Ok(())
    }

    /// Gives up all copies.
    pub fn drop_all(&mut self)
        ensures copies { self.new ≡ no_frames (length self.old.present) }
        ensures sound { IsSound self.new }
    {
        for frame in self.frames.iter_mut() {
            *frame = None;
        }
        self.count = 0;
    }

    /// The byte at a place of a frame that is there.
    pub fn byte(&self, place: usize) -> u8
        requires { get_or self.now.present (place / PAGE_SIZE) false ≡ true }
        ensures { result ≡ slice_index self.now.bytes place }
    {
        let Some(copy) = &self.frames[place / PAGE_SIZE as usize] else {
            unreachable!()
        };
        copy.byte(place % PAGE_SIZE as usize)
    }

    /// Puts a byte at a place of a frame that is there.
    pub fn set_byte(&mut self, place: usize, byte: u8)
        requires { get_or self.old.present (place / PAGE_SIZE) false ≡ true }
        ensures copies { self.new ≡ record self.old { bytes = slice_set self.old.bytes place byte } }
        ensures sound { IsSound self.new }
    {
        let Some(copy) = &mut self.frames[place / PAGE_SIZE as usize] else {
            unreachable!()
        };
        copy.set_byte(place % PAGE_SIZE as usize, byte);
    }

    /// The word with a number, which is 0 where its frame is not there.
    pub fn word(&self, word: usize) -> u64
        requires { word < FRAME_WORDS * length self.now.present }
        ensures { result ≡ word_at self.now.bytes (8 * word) }
    {
        match &self.frames[word / FRAME_WORDS as usize] {
            Some(copy) => copy.word(8 * (word % FRAME_WORDS as usize)),
            None => 0,
        }
    }

    /// The word with a number as it was given, which is 0 where its frame is not there.
    pub fn given_word(&self, word: usize) -> u64
        requires { word < FRAME_WORDS * length self.now.present }
        ensures { result ≡ word_at self.now.given (8 * word) }
    {
        match &self.frames[word / FRAME_WORDS as usize] {
            Some(copy) => copy.given_word(8 * (word % FRAME_WORDS as usize)),
            None => 0,
        }
    }

    /// Puts the word with a number, in a frame that is there.
    pub fn set_word(&mut self, word: usize, value: u64)
        requires { get_or self.old.present (word / FRAME_WORDS) false ≡ true }
        ensures copies { self.new ≡ record self.old { bytes = put_word self.old.bytes (8 * word) value } }
        ensures sound { IsSound self.new }
    {
        let Some(copy) = &mut self.frames[word / FRAME_WORDS as usize] else {
            unreachable!()
        };
        copy.set_word(8 * (word % FRAME_WORDS as usize), value);
    }

    /// Puts back the 8 bytes that were given for the word with a number, in a frame that is there.
    pub fn restore_word(&mut self, word: usize)
        requires { get_or self.old.present (word / FRAME_WORDS) false ≡ true }
        ensures copies { self.new ≡ record self.old { bytes = bytes_restored self.old.given self.old.bytes (8 * word) } }
        ensures sound { IsSound self.new }
    {
        let Some(copy) = &mut self.frames[word / FRAME_WORDS as usize] else {
            unreachable!()
        };
        copy.restore_word(8 * (word % FRAME_WORDS as usize));
    }

    /// Whether the word with a number is noted as read. Its frame is there.
    pub fn is_read(&self, word: usize) -> bool
        requires { get_or self.now.present (word / FRAME_WORDS) false ≡ true }
        ensures { result ≡ get_or self.now.read word false }
    {
        let Some(copy) = &self.frames[word / FRAME_WORDS as usize] else {
            unreachable!()
        };
        copy.is_read(word % FRAME_WORDS as usize)
    }

    /// Whether the word with a number is noted as written. Its frame is there.
    pub fn is_written(&self, word: usize) -> bool
        requires { get_or self.now.present (word / FRAME_WORDS) false ≡ true }
        ensures { result ≡ get_or self.now.written word false }
    {
        let Some(copy) = &self.frames[word / FRAME_WORDS as usize] else {
            unreachable!()
        };
        copy.is_written(word % FRAME_WORDS as usize)
    }

    /// Notes whether the word with a number was read. Its frame is there.
    pub fn set_read(&mut self, word: usize, read: bool)
        requires { get_or self.old.present (word / FRAME_WORDS) false ≡ true }
        ensures copies { self.new ≡ record self.old { read = set self.old.read word read } }
        ensures sound { IsSound self.new }
    {
        let Some(copy) = &mut self.frames[word / FRAME_WORDS as usize] else {
            unreachable!()
        };
        copy.set_read(word % FRAME_WORDS as usize, read);
    }

    /// Notes whether the word with a number was written. Its frame is there.
    pub fn set_written(&mut self, word: usize, written: bool)
        requires { get_or self.old.present (word / FRAME_WORDS) false ≡ true }
        ensures copies { self.new ≡ record self.old { written = set self.old.written word written } }
        ensures sound { IsSound self.new }
    {
        let Some(copy) = &mut self.frames[word / FRAME_WORDS as usize] else {
            unreachable!()
        };
        copy.set_written(word % FRAME_WORDS as usize, written);
    }
}
