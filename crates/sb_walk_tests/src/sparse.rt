//! The memory of the tests: it misses a frame, and notes its calls.

ghost use Rattle.std.specs.Prelude.{◌≡◌, ◌≤◌, take};
ghost use Rattle.sb_walk_tests.specs.TestMemory.{noted_place};

use sb_memory::{Frame, Memory, Missing, PAGE_SIZE, Phys, PhysAddr};
use std::alloc::{AllocError, Global};

/// Memory of so many frames. Contracts do not see how many, so that no proof lists its bytes.
pub fn some_memory(alloc: Global, frames: u32) -> Result<Memory, AllocError> {
    Memory::new(alloc, frames)
}

/// Puts a word at a place, if it is a place for words.
pub fn put(memory: &mut Memory, place: u64, word: u64) {
    if place < PAGE_SIZE * u64::from(memory.frames()) && place % 8 == 0 {
        memory.set_word(PhysAddr(place), word);
    }
}

/// The word at a place, if it is a place for words.
pub fn word_at(memory: &Memory, place: u64) -> Option<u64> {
    if place >= PAGE_SIZE * u64::from(memory.frames()) || place % 8 != 0 {
        return None;
    }
    Some(memory.word(PhysAddr(place)))
}

/// A memory without one of its frames, which notes the places of its first calls.
#[derive(Drop)]
pub struct Sparse<'a> {
    memory: &'a mut Memory,
    missing: u32,
    /// The places of the first calls, the first `count` of these words.
    pub places: [u64; 8],
    pub count: usize,
    ghost within: { count ≤ 8 },
}

impl<'a> Sparse<'a> {
    /// The memory without this frame. No call is noted yet.
    pub fn without(memory: &'a mut Memory, missing: u32) -> Sparse<'a> {
        Sparse {
            memory,
            missing,
            places: [0; 8],
            count: 0,
        }
    }
}

/// That a frame is not there.
fn gap(frame: u32) -> Missing
    ensures { result.frame.0 ≡ frame }
{
    Missing {
        frame: Frame(frame),
    }
}

/// Notes a place, if there is room.
#[tactic(auto, unfolding(crate::specs::TestMemory::noted_place))]
fn note(places: &mut [u64; 8], count: &mut usize, place: u64)
    requires { count.old ≤ 8 }
    ensures places { take count.new places.new ≡ noted_place place (take count.old places.old) }
    ensures within { count.new ≤ 8 }
{
    if *count < 8 {
        places[*count] = place;
        *count += 1;
    }
}

impl Phys for Sparse<'_> {
    ghost use Rattle.std.specs.Prelude.{ℕ, List, take};
    ghost use Rattle.sb_walk_tests.specs.TestMemory.{noted, without_frame};

    ghost Account = { List ℕ };

    ghost Kept = { ℕ × ℕ };

    ghost meaning = { λ sparse. without_frame sparse.memory.now sparse.missing };

    ghost account = { λ sparse. take sparse.count sparse.places };

    ghost kept = { λ sparse. (sparse.memory.ghost_name, sparse.missing) };

    ghost rule = { noted };

    fn frames(&self) -> u32 {
        self.memory.frames()
    }

    fn read_byte(&mut self, at: PhysAddr) -> Result<u8, Missing> {
        note(&mut self.places, &mut self.count, at.0);
        if at.0 / PAGE_SIZE == u64::from(self.missing) {
            return Err(gap(self.missing));
        }
        self.memory.read_byte(at)
    }

    fn read_word(&mut self, at: PhysAddr) -> Result<u64, Missing> {
        note(&mut self.places, &mut self.count, at.0);
        if at.0 / PAGE_SIZE == u64::from(self.missing) {
            return Err(gap(self.missing));
        }
        self.memory.read_word(at)
    }

    fn write_byte(&mut self, at: PhysAddr, value: u8) -> Result<(), Missing> {
        note(&mut self.places, &mut self.count, at.0);
        if at.0 / PAGE_SIZE == u64::from(self.missing) {
            return Err(gap(self.missing));
        }
        self.memory.write_byte(at, value)
    }

    fn write_word(&mut self, at: PhysAddr, value: u64) -> Result<(), Missing> {
        note(&mut self.places, &mut self.count, at.0);
        if at.0 / PAGE_SIZE == u64::from(self.missing) {
            return Err(gap(self.missing));
        }
        self.memory.write_word(at, value)
    }
}
