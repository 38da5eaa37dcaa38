//! Memory that has all its frames.

ghost use Rattle.std.specs.Prelude.{◌≡◌, ℕ, ◌+◌, ◌*◌, ◌≤◌, ◌<◌, length, get_or, IfOk};
ghost use Rattle.sb_memory.specs.declared.page.TheConstants.{PAGE_SIZE};
ghost use Rattle.sb_memory.specs.Physical.{HasSize, IsPhysical, IsPlace, IsWordPlace, HasAllFrames, frame_count, zeroed_memory};
ghost use Rattle.sb_memory.specs.Reading.{with_bytes};
ghost use Rattle.sb_memory.specs.Words.{word_at, put_word, put_bytes, clear_frame};

use crate::address::{Frame, Missing, PhysAddr};
use crate::bytes::{put_bytes, put_word, put_zeros, word};
use crate::page::PAGE_SIZE;
use crate::phys::Phys;
use std::alloc::{AllocError, Global};
use std::marker::Model;

/// The bytes of all frames, one after another. None of its calls answers `Missing`, and it keeps no account.
///
/// Whoever owns a memory reads and writes it by `word`, `set_word` and their kin, which cannot be refused; code for any
/// memory goes through `Phys`.
#[derive(Drop)]
pub struct Memory {
    bytes: Vec<u8>,
    frames: u32,
}

impl Model for Memory {
    ghost use Rattle.std.specs.Prelude.{◌≡◌, ◌*◌, replicate, true, length};
    ghost use Rattle.sb_memory.specs.declared.page.TheConstants.{PAGE_SIZE};
    ghost use Rattle.sb_memory.specs.Physical.{Physical};

    ghost Value = { Physical };

    ghost view = { λ memory. record { bytes = memory.bytes.items; present = replicate memory.frames true } };

    ghost invariant = { λ memory. length memory.bytes.items ≡ PAGE_SIZE * memory.frames };
}

impl Memory {
    /// Memory of zeros.
    pub fn new(alloc: Global, frames: u32) -> Result<Memory, AllocError>
        ensures { IfOk result (λ memory. memory ≡ zeroed_memory frames) }
    {
        let bytes = vec![in alloc; 0u8; PAGE_SIZE as usize * frames as usize]?;
        Ok(Memory { bytes, frames })
    }

    /// All bytes, from place 0 on.
    pub fn bytes(&self) -> &[u8]
        ensures { result.now ≡ self.now.bytes }
    {
        &self.bytes
    }

    /// The word at a place that is a multiple of 8.
    pub fn word(&self, at: PhysAddr) -> u64
        requires { IsWordPlace self.now at.0 }
        ensures { result ≡ word_at self.now.bytes at.0 }
    {
        word(&self.bytes, at.0 as usize)
    }

    /// Puts a word at a place that is a multiple of 8.
    pub fn set_word(&mut self, at: PhysAddr, word: u64)
        requires { IsWordPlace self.old at.0 }
        ensures written { self.new ≡ with_bytes self.old (put_word self.old.bytes at.0 word) }
        ensures size { HasSize self.new }
    {
        put_word(&mut self.bytes, at.0 as usize, word);
    }

    /// Puts bytes at a place.
    pub fn set_bytes(&mut self, at: PhysAddr, bytes: &[u8])
        requires { at.0 + length bytes.now ≤ PAGE_SIZE * frame_count self.old }
        ensures written { self.new ≡ with_bytes self.old (put_bytes self.old.bytes at.0 bytes.now) }
        ensures size { HasSize self.new }
    {
        put_bytes(&mut self.bytes, at.0 as usize, bytes);
    }

    /// Puts zeros into a frame.
    #[tactic(auto, unfolding(crate::specs::Words::clear_frame))]
    pub fn clear_frame(&mut self, frame: Frame)
        requires { frame.0 < frame_count self.old }
        ensures written { self.new ≡ with_bytes self.old (clear_frame self.old.bytes frame.0) }
        ensures size { HasSize self.new }
    {
        put_zeros(&mut self.bytes, frame.base().0 as usize, PAGE_SIZE as usize);
    }
}

/// What a `u8` is, for contracts that speak of numbers.
fn each_is_a_byte(bytes: &[u8])
    ensures { (place : ℕ) → get_or bytes.now place 0 < 256 }
{}

impl Phys for Memory {
    ghost use Rattle.std.specs.Prelude.{◌≡◌};
    ghost use Rattle.sb_memory.specs.Physical.{Physical};

    ghost Account = { Unit {0} };

    ghost Kept = { Unit {0} };

    ghost meaning = { λ memory. memory };

    ghost account = { λ _. tt };

    ghost kept = { λ _. tt };

    ghost rule = { λ _ _ account. account };

    fn frames(&self) -> u32
        ensures count { result ≡ frame_count self.now }
        ensures sound { IsPhysical self.now }
        ensures all { HasAllFrames self.now }
    {
        each_is_a_byte(&self.bytes);
        self.frames
    }

    fn read_byte(&mut self, at: PhysAddr) -> Result<u8, Missing> {
        Ok(self.bytes[at.0 as usize])
    }

    fn read_word(&mut self, at: PhysAddr) -> Result<u64, Missing> {
        Ok(word(&self.bytes, at.0 as usize))
    }

    fn write_byte(&mut self, at: PhysAddr, value: u8) -> Result<(), Missing> {
        self.bytes[at.0 as usize] = value;
        Ok(())
    }

    fn write_word(&mut self, at: PhysAddr, value: u64) -> Result<(), Missing> {
        put_word(&mut self.bytes, at.0 as usize, value);
        Ok(())
    }
}
