//! The parts of a machine.

ghost use Rattle.std.specs.Prelude.{◌≡◌, ◌<◌, length};
ghost use Rattle.sb_machine.specs.Machine.{core_at, with_core, with_state};

use crate::processor::{Core, CoreState};
use sb_frames::FrameBook;
use sb_memory::Memory;
use sb_root::RootKernel;
use sb_sub::SubKernel;
use std::marker::Model;

/// Memory, the frame book, the two kernels, and a core for each thread.
#[derive(Drop)]
pub struct Parts {
    pub(crate) memory: Memory,
    pub(crate) book: FrameBook,
    pub(crate) root: RootKernel,
    pub(crate) kernel: SubKernel,
    pub(crate) cores: Vec<Core>,
}

impl Model for Parts {
    ghost use Rattle.sb_machine.specs.Machine.{Machine};

    ghost Value = { Machine };

    ghost view = { λ parts. record {
      memory = parts.memory;
      book = parts.book;
      root = parts.root;
      kernel = parts.kernel;
      cores = parts.cores.items;
    } };
}

impl Parts {
    /// A core.
    #[tactic(auto, unfolding(crate::specs::Machine::core_at))]
    pub fn core(&self, number: u8) -> Core
        requires { number < length self.now.cores }
        ensures { result ≡ core_at self.now number }
    {
        self.cores[usize::from(number)]
    }

    /// Puts a core.
    pub fn set_core(&mut self, number: u8, core: Core)
        requires { number < length self.old.cores }
        ensures { self.new ≡ with_core self.old number core }
    {
        self.cores[usize::from(number)] = core;
    }

    /// Puts the state of a core.
    pub fn set_state(&mut self, number: u8, state: CoreState)
        requires { number < length self.old.cores }
        ensures { self.new ≡ with_state self.old number state }
    {
        let core = self.core(number);
        self.set_core(number, Core { state, ..core });
    }
}
