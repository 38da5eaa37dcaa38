//! Which frames are taken, for what, and by whom.

ghost use Rattle.std.specs.Prelude.{◌≡◌, ◌≢◌, ◌↔◌, ℕ, ◌+◌, ◌-◌, ◌<◌, ◌≤◌, Option, List, length, get_or, IfOk, IfSome, IfNone, count_by, is_none};
ghost use Rattle.sb_frames.specs.Book.{Book, IsInBook, IsLowestFree, IsTaken, after_take, empty_book, first_frame, free_count, holder, with_holder};

use crate::kind::Kind;
use sb_abi::KEPT_FRAMES;
use sb_memory::Frame;
use std::alloc::{AllocError, Global};
use std::marker::Model;

/// The number of the first frame that can be taken. Those below have fixed uses.
const FIRST_FRAME: u32 = KEPT_FRAMES;

/// The frames of a memory from 512 on, each free or taken.
#[derive(Drop)]
pub struct FrameBook {
    /// For each frame from 512 on, its kind and its owner where it is taken.
    holders: Vec<Option<(Kind, u32)>>,
    /// Every frame before this index is taken, so that a run of takes looks at each frame once.
    first: usize,
    free: u32,
}

impl Model for FrameBook {
    ghost use Rattle.sb_frames.specs.Book.{Book};
    ghost use Rattle.sb_frames.specs.Kept.{IsSound};

    ghost Value = { Book };

    ghost view = { λ book. book.holders.items };

    ghost invariant = { λ book. IsSound book.holders.items book.first book.free };
}

impl FrameBook {
    /// The book of a memory of so many frames: those from 512 on are free.
    pub fn new(alloc: Global, frames: u32) -> Result<FrameBook, AllocError>
        ensures empty { IfOk result (λ book. book ≡ empty_book frames) }
        ensures free { IfOk result (λ book. free_count book ≡ frames - first_frame) }
    {
        let free = frames.saturating_sub(FIRST_FRAME);
        let holders = vec![in alloc; None; free as usize]?;
        Ok(FrameBook {
            holders,
            first: 0,
            free,
        })
    }

    /// The number of free frames.
    pub fn free(&self) -> u32
        ensures { result ≡ free_count self.now }
    {
        self.free
    }

    /// Takes the lowest free frame. `None` comes exactly where no frame is free.
    pub fn take(&mut self, kind: Kind, owner: u32) -> Option<Frame>
        ensures none { (result ≡ None) ↔ (free_count self.old ≡ 0) }
        ensures lowest { IfSome result (λ frame. IsLowestFree self.old frame.0) }
        ensures taken { self.new ≡ after_take self.old result kind owner }
        ensures fewer { IfSome result (λ _. free_count self.new + 1 ≡ free_count self.old) }
    {
        let Some(index) = first_free(&self.holders, self.first) else {
            return None;
        };
        self.holders[index] = Some((kind, owner));
        self.first = index + 1;
        self.free -= 1;
        Some(Frame(FIRST_FRAME + index as u32))
    }

    /// Takes the lowest free frame, where one is free.
    pub fn take_free(&mut self, kind: Kind, owner: u32) -> Frame
        requires { 0 < free_count self.old }
        ensures lowest { IsLowestFree self.old result.0 }
        ensures taken { self.new ≡ with_holder self.old result.0 (Some (kind, owner)) }
        ensures fewer { free_count self.new + 1 ≡ free_count self.old }
    {
        match self.take(kind, owner) {
            Some(frame) => frame,
            None => unreachable!(),
        }
    }

    /// Makes a taken frame free.
    pub fn give_back(&mut self, frame: Frame)
        requires { IsTaken self.old frame.0 }
        ensures given_back { self.new ≡ with_holder self.old frame.0 None }
        ensures more { free_count self.new ≡ free_count self.old + 1 }
    {
        let index = (frame.0 - FIRST_FRAME) as usize;
        self.holders[index] = None;
        self.first = self.first.min(index);
        self.free += 1;
    }

    /// What a frame was taken for, and by whom. `None` comes exactly for a free frame.
    pub fn kind_of(&self, frame: Frame) -> Option<(Kind, u32)>
        requires { IsInBook self.now frame.0 }
        ensures { result ≡ holder self.now frame.0 }
    {
        self.holders[(frame.0 - FIRST_FRAME) as usize]
    }
}

/// The first index of a free frame, from a given one on.
fn first_free(holders: &[Option<(Kind, u32)>], from: usize) -> Option<usize>
    ensures none { IfNone result ((index : ℕ) → from ≤ index → index < length holders.now
        → get_or holders.now index None ≢ None) }
    ensures within { IfSome result (λ found. (from ≤ found) × (found < length holders.now)) }
    ensures free { IfSome result (λ found. get_or holders.now found None ≡ None) }
    ensures lowest { IfSome result (λ found. (index : ℕ) → from ≤ index → index < found → get_or holders.now index None ≢ None) }
{
    for index in from..holders.len() {
        if holders[index].is_none() {
            return Some(index);
        }
    }
    None
}
