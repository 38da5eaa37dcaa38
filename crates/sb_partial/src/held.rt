//! Copies of frames, with what is noted of them.

ghost use Rattle.std.specs.Prelude.{ℕ, ◌≡◌, ◌+◌, ◌*◌, ◌<◌, ◌≤◌, length, get_or, IfErr, IfOk};
ghost use Rattle.sb_partial.specs.Copies.{AllInside, no_copies, untouched, with_copy};
ghost use Rattle.sb_memory.specs.Physical.{frame_count, frame_of};
ghost use Rattle.sb_memory.specs.Reading.{missing};
ghost use Rattle.sb_memory.specs.Words.{word_at};
ghost use Rattle.sb_memory.specs.declared.page.TheConstants.{PAGE_SIZE};

use crate::frame::FRAME_WORDS;
use crate::frames::FrameCopies;
use crate::note::{forget_reads, note_read, note_written, take_back};
use sb_memory::{Frame, Missing, PAGE_SIZE, Phys, PhysAddr};
use std::alloc::{AllocError, Global};
use std::marker::Model;

/// The copies of all frames, and the lists of the words that were read and written. Each list has room for all words of the
/// frames that are there. The marks are the lengths of the lists when the present step began.
#[derive(Drop)]
pub struct Held {
    copies: FrameCopies,
    reads: Vec<u64>,
    read_mark: usize,
    writes: Vec<u64>,
    write_mark: usize,
}

impl Model for Held {
    ghost use Rattle.std.specs.Prelude.{take, vec_capacity};
    ghost use Rattle.sb_partial.specs.Copies.{Copied};
    ghost use Rattle.sb_partial.specs.Noting.{AreNoted};

    ghost Value = { Copied };

    ghost view = { λ held. record {
      given = record { bytes = held.copies.given; present = held.copies.present };
      memory = record { bytes = held.copies.bytes; present = held.copies.present };
      noted = record { reads = held.reads.items; writes = held.writes.items };
      began = record { reads = take held.read_mark held.reads.items; writes = take held.write_mark held.writes.items };
    } };

    ghost invariant = { λ held. AreNoted held.copies held.reads.items held.writes.items held.read_mark held.write_mark
        (vec_capacity held.reads) (vec_capacity held.writes) };
}

impl Held {
    /// So many frames, of none of which there is a copy.
    pub fn new(alloc: Global, frames: usize) -> Result<Held, AllocError>
        requires { frames ≤ 8192 }
        ensures { IfOk result (λ held. held ≡ untouched (no_copies frames)) }
    {
        Ok(Held {
            copies: FrameCopies::new(alloc, frames)?,
            reads: Vec::new(alloc),
            read_mark: 0,
            writes: Vec::new(alloc),
            write_mark: 0,
        })
    }

    /// Gives a copy of a frame, which takes the place of an earlier one, with room to note each of its words.
    pub fn give(&mut self, alloc: Global, frame: usize, bytes: &[u8]) -> Result<(), AllocError>
        requires frame { frame < frame_count self.old.given }
        requires size { length bytes.now ≡ PAGE_SIZE }
        requires untouched { self.old ≡ untouched self.old.given }
        ensures given { IfOk result (λ _. self.new ≡ untouched (with_copy self.old.given frame bytes.now)) }
        ensures refused { IfErr result (λ _. self.new ≡ self.old) }
    {
        let words = FRAME_WORDS as usize * (self.copies.copy_count() + 1);
        self.reads.reserve(words)?;
        self.writes.reserve(words)?;
        self.copies.give(alloc, frame, bytes)?;
        Ok(())
    }

    /// Gives up all copies.
    pub fn drop_all(&mut self)
        requires { self.old ≡ untouched self.old.given }
        ensures { self.new ≡ untouched (no_copies (frame_count self.old.given)) }
    {
        self.copies.drop_all();
    }

    /// A step begins.
    pub fn begin(&mut self)
        ensures { self.new ≡ record self.old { began = self.old.noted } }
    {
        self.read_mark = self.reads.len();
        self.write_mark = self.writes.len();
    }

    /// The words that were read before the present step began.
    pub fn reads(&self) -> &[u64]
        ensures words { result.now ≡ self.now.began.reads }
        ensures inside { AllInside self.now.given result.now }
    {
        &self.reads[..self.read_mark]
    }

    /// The words that were written before the present step began.
    pub fn writes(&self) -> &[u64]
        ensures words { result.now ≡ self.now.began.writes }
        ensures inside { AllInside self.now.given result.now }
    {
        &self.writes[..self.write_mark]
    }

    /// A word by its number, as it was given.
    pub fn given_word(&self, word: u64) -> u64
        requires { 8 * word + 8 ≤ PAGE_SIZE * frame_count self.now.given }
        ensures { result ≡ word_at self.now.given.bytes (8 * word) }
    {
        self.copies.given_word(word as usize)
    }

    /// A word by its number, with what was written since.
    pub fn word(&self, word: u64) -> u64
        requires { 8 * word + 8 ≤ PAGE_SIZE * frame_count self.now.given }
        ensures { result ≡ word_at self.now.memory.bytes (8 * word) }
    {
        self.copies.word(word as usize)
    }

    /// Takes back all that was written and noted.
    pub fn restore(&mut self)
        ensures { self.new ≡ untouched self.old.given }
    {
        take_back(&mut self.copies, &self.writes);
        forget_reads(&mut self.copies, &self.reads);
        self.reads.clear();
        self.read_mark = 0;
        self.writes.clear();
        self.write_mark = 0;
    }
}

/// The answer to a call at a place whose frame is not there.
pub fn missing(at: PhysAddr) -> Missing
    requires { at.0 < PAGE_SIZE * 8192 }
    ensures { result ≡ missing (frame_of at.0) }
{
    Missing {
        frame: Frame((at.0 / PAGE_SIZE) as u32),
    }
}

impl Phys for Held {
    ghost use Rattle.sb_memory.specs.Physical.{Physical};
    ghost use Rattle.sb_agree.specs.Noted.{Noted, noted_rule};

    ghost Account = { Noted };

    ghost Kept = { Physical × Noted };

    ghost meaning = { λ held. held.memory };

    ghost account = { λ held. held.noted };

    ghost kept = { λ held. (held.given, held.began) };

    ghost rule = { noted_rule };

    fn frames(&self) -> u32 {
        self.copies.frame_count() as u32
    }

    #[tactic(auto, unfolding(sb_agree::specs::Noted::noted_rule, sb_agree::specs::Noted::read_noted))]
    fn read_byte(&mut self, at: PhysAddr) -> Result<u8, Missing> {
        if !self.copies.has_frame((at.0 / PAGE_SIZE) as usize) {
            return Err(missing(at));
        }
        let touched = at.0 / 8;
        note_read(&mut self.copies, &mut self.reads, touched);
        Ok(self.copies.byte(at.0 as usize))
    }

    #[tactic(auto, unfolding(sb_agree::specs::Noted::noted_rule, sb_agree::specs::Noted::read_noted))]
    fn read_word(&mut self, at: PhysAddr) -> Result<u64, Missing> {
        if !self.copies.has_frame((at.0 / PAGE_SIZE) as usize) {
            return Err(missing(at));
        }
        let whole = at.0 / 8;
        note_read(&mut self.copies, &mut self.reads, whole);
        Ok(self.copies.word(whole as usize))
    }

    #[tactic(auto, unfolding(sb_agree::specs::Noted::noted_rule))]
    fn write_byte(&mut self, at: PhysAddr, value: u8) -> Result<(), Missing> {
        if !self.copies.has_frame((at.0 / PAGE_SIZE) as usize) {
            return Err(missing(at));
        }
        let partly = at.0 / 8;
        note_read(&mut self.copies, &mut self.reads, partly);
        note_written(&mut self.copies, &mut self.writes, partly);
        self.copies.set_byte(at.0 as usize, value);
        Ok(())
    }

    #[tactic(auto, unfolding(sb_agree::specs::Noted::noted_rule, sb_agree::specs::Noted::write_noted))]
    fn write_word(&mut self, at: PhysAddr, value: u64) -> Result<(), Missing> {
        if !self.copies.has_frame((at.0 / PAGE_SIZE) as usize) {
            return Err(missing(at));
        }
        let word = at.0 / 8;
        note_written(&mut self.copies, &mut self.writes, word);
        self.copies.set_word(word as usize, value);
        Ok(())
    }
}
