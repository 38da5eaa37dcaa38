//! Physical memory of which some frames are there, as copies.

ghost use Rattle.std.specs.Prelude.{◌≡◌, ◌+◌, ◌*◌, ◌<◌, ◌≤◌, length, IfErr, IfOk};
ghost use Rattle.sb_partial.specs.Copies.{AllInside, no_copies, untouched, with_copy};
ghost use Rattle.sb_memory.specs.Physical.{frame_count};
ghost use Rattle.sb_memory.specs.Words.{word_at};
ghost use Rattle.sb_memory.specs.declared.page.TheConstants.{PAGE_SIZE};

use crate::held::{Held, missing};
use sb_memory::{Frame, Missing, Phys, PhysAddr};
use std::alloc::{AllocError, Global};
use std::marker::Model;

/// Physical memory of which some frames are there, as copies. It notes which words are read and which are written, each once, and
/// holds back what is written. A call at a frame of which there is no copy answers `Missing`.
///
/// To contracts it is a `Copied`. As a `Phys` its account is `Noted` with `noted_rule`, and what no call changes is what was
/// given and what was noted when the present step began.
#[derive(Drop)]
pub struct Partial {
    frames: u32,
    held: Option<Held>,
}

impl Model for Partial {
    ghost use Rattle.std.specs.Prelude.{◌≤◌};
    ghost use Rattle.sb_partial.specs.Copies.{Copied, copied_in};

    ghost Value = { Copied };

    ghost view = { λ part. copied_in part.frames part.held };

    ghost invariant = { λ part. part.frames ≤ 8192 };
}

impl Partial {
    /// Memory of so many frames, of none of which there is a copy. It takes no memory.
    pub fn new(frames: u32) -> Partial
        requires some { 1 ≤ frames }
        requires few { frames ≤ 8192 }
        ensures { result ≡ untouched (no_copies frames) }
    {
        Partial { frames, held: None }
    }

    /// Gives a copy of a frame, which takes the place of an earlier one. With it comes the room in which each of its words can be
    /// noted as read and as written, so that no call of a `Phys` takes memory.
    ///
    /// # Errors
    ///
    /// Want of memory alone. Nothing was given then.
    pub fn give(&mut self, alloc: Global, frame: Frame, bytes: &[u8]) -> Result<(), AllocError>
        requires frame { frame.0 < frame_count self.old.given }
        requires size { length bytes.now ≡ PAGE_SIZE }
        requires untouched { self.old ≡ untouched self.old.given }
        ensures given { IfOk result (λ _. self.new ≡ untouched (with_copy self.old.given frame.0 bytes.now)) }
        ensures refused { IfErr result (λ _. self.new ≡ self.old) }
    {
        match &mut self.held {
            Some(held) => held.give(alloc, frame.0 as usize, bytes),
            None => {
                let mut held = Held::new(alloc, self.frames as usize)?;
                held.give(alloc, frame.0 as usize, bytes)?;
                self.held = Some(held);
                Ok(())
            }
        }
    }

    /// Gives up all copies.
    pub fn drop_all(&mut self)
        requires { self.old ≡ untouched self.old.given }
        ensures { self.new ≡ untouched (no_copies (frame_count self.old.given)) }
    {
        if let Some(held) = &mut self.held {
            held.drop_all();
        }
    }

    /// A step begins: what was noted so far is what `began` says from now on.
    pub fn begin(&mut self)
        ensures { self.new ≡ record self.old { began = self.old.noted } }
    {
        if let Some(held) = &mut self.held {
            held.begin();
        }
    }

    /// The numbers of the words that were read before the present step began, in the order in which they were first read.
    pub fn reads(&self) -> &[u64]
        ensures words { result.now ≡ self.now.began.reads }
        ensures inside { AllInside self.now.given result.now }
    {
        match &self.held {
            Some(held) => held.reads(),
            None => &[],
        }
    }

    /// The numbers of the words that were written before the present step began, in the order in which they were first written.
    pub fn writes(&self) -> &[u64]
        ensures words { result.now ≡ self.now.began.writes }
        ensures inside { AllInside self.now.given result.now }
    {
        match &self.held {
            Some(held) => held.writes(),
            None => &[],
        }
    }

    /// A word by its number, as it was given.
    pub fn given_word(&self, word: u64) -> u64
        requires { 8 * word + 8 ≤ PAGE_SIZE * frame_count self.now.given }
        ensures { result ≡ word_at self.now.given.bytes (8 * word) }
    {
        match &self.held {
            Some(held) => held.given_word(word),
            None => 0,
        }
    }

    /// A word by its number, with what was written since.
    pub fn word(&self, word: u64) -> u64
        requires { 8 * word + 8 ≤ PAGE_SIZE * frame_count self.now.given }
        ensures { result ≡ word_at self.now.memory.bytes (8 * word) }
    {
        match &self.held {
            Some(held) => held.word(word),
            None => 0,
        }
    }

    /// Takes back all that was written and noted.
    pub fn restore(&mut self)
        ensures { self.new ≡ untouched self.old.given }
    {
        if let Some(held) = &mut self.held {
            held.restore();
        }
    }
}

impl Phys for Partial {
    ghost use Rattle.sb_memory.specs.Physical.{Physical};
    ghost use Rattle.sb_agree.specs.Noted.{Noted, noted_rule};

    ghost Account = { Noted };

    ghost Kept = { Physical × Noted };

    ghost meaning = { λ part. part.memory };

    ghost account = { λ part. part.noted };

    ghost kept = { λ part. (part.given, part.began) };

    ghost rule = { noted_rule };

    fn frames(&self) -> u32 {
        match &self.held {
            Some(held) => held.frames(),
            None => self.frames,
        }
    }

    #[tactic(auto, unfolding(sb_agree::specs::Noted::noted_rule))]
    fn read_byte(&mut self, at: PhysAddr) -> Result<u8, Missing> {
        match &mut self.held {
            Some(held) => held.read_byte(at),
            None => Err(missing(at)),
        }
    }

    #[tactic(auto, unfolding(sb_agree::specs::Noted::noted_rule))]
    fn read_word(&mut self, at: PhysAddr) -> Result<u64, Missing> {
        match &mut self.held {
            Some(held) => held.read_word(at),
            None => Err(missing(at)),
        }
    }

    #[tactic(auto, unfolding(sb_agree::specs::Noted::noted_rule))]
    fn write_byte(&mut self, at: PhysAddr, value: u8) -> Result<(), Missing> {
        match &mut self.held {
            Some(held) => held.write_byte(at, value),
            None => Err(missing(at)),
        }
    }

    #[tactic(auto, unfolding(sb_agree::specs::Noted::noted_rule))]
    fn write_word(&mut self, at: PhysAddr, value: u64) -> Result<(), Missing> {
        match &mut self.held {
            Some(held) => held.write_word(at, value),
            None => Err(missing(at)),
        }
    }
}
