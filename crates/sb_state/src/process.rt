//! What the machine keeps of a process.

ghost use Rattle.std.specs.Prelude.{◌≡◌, None};
ghost use Rattle.sb_slots.specs.Marks.{mark};
ghost use Rattle.sb_state.specs.State.{is_listed};

use crate::state::Registration;
use sb_slots::{Mark, TextMap};
use std::marker::Model;

/// A process: where the instructions of its text stand, the number of its heap pages, and what it told as a server.
#[derive(Debug, Drop)]
pub struct Process {
    map: TextMap,
    pub heap_pages: u32,
    pub registration: Option<Registration>,
}

impl Model for Process {
    ghost use Rattle.sb_state.specs.State.{Process};

    ghost Value = { Process };

    ghost view = { λ process. record {
      map = process.map;
      heap_pages = process.heap_pages;
      registration = process.registration;
    } };
}

impl Process {
    /// A process that is no server yet.
    pub fn new(map: TextMap, heap_pages: u32) -> Process
        ensures { result ≡ record { map = map; heap_pages = heap_pages; registration = None } }
    {
        Process {
            map,
            heap_pages,
            registration: None,
        }
    }

    /// Whether an instruction of its text starts at the address.
    pub fn is_start(&self, at: u64) -> bool
        ensures { result ≡ is_listed self.now.map.starts at }
    {
        self.map.is_start(at)
    }

    /// What the step of an instruction at the address is to its text, where RIP is `next` after it, and `scratch` says whether
    /// it accessed the scratch page (docs/MARKS.md).
    pub fn mark(&self, at: u64, next: u64, scratch: bool) -> Mark
        ensures { result ≡ mark self.now.map at next scratch }
    {
        self.map.mark(at, next, scratch)
    }
}
