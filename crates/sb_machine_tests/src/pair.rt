//! The machine with page tables and the plain machine side by side.

ghost use Rattle.std.specs.Prelude.{◌≡◌, length};

use sb_load::Loaded;
use sb_machine::Machine;
use sb_plain::Plain;
use sb_trace::{EndState, Line};
use std::alloc::{AllocError, Global};

/// Both machines, and how many cores the one with page tables has.
#[derive(Drop)]
pub struct Pair {
    machine: Machine,
    plain: Plain,
    cores: u8,
    ghost count: { length machine.cores ≡ cores },
}

impl Pair {
    /// Both at the start of what was loaded.
    #[tactic(auto, using(sb_machine::proofs::Ran::run_cores))]
    pub fn new(alloc: Global, loaded: &Loaded) -> Result<Pair, AllocError> {
        let machine = Machine::new(alloc, loaded)?;
        let plain = Plain::new(alloc, loaded)?;
        let cores = loaded.bundle().cores.items().len() as u8;
        Ok(Pair {
            machine,
            plain,
            cores,
        })
    }

    /// A step of a core of both, where there is such a core, with their lines.
    pub fn step(&mut self, core: u8) -> Option<(Line, Line)> {
        if core >= self.cores {
            return None;
        }
        Some((self.machine.step(core), self.plain.step(core)))
    }

    /// What is left of both.
    pub fn ends(&self, alloc: Global) -> Result<(EndState, EndState), AllocError> {
        Ok((self.machine.end(alloc)?, self.plain.end(alloc)?))
    }
}
