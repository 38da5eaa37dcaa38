//! A machine, and copies of its frames.

ghost use Rattle.std.specs.Prelude.{◌≡◌, ◌≤◌, ◌<◌, IfOk, length};
ghost use Rattle.sb_memory.specs.Physical.{frame_count};
ghost use Rattle.sb_machine.specs.OwnSteps.{HasWalks};
ghost use Rattle.sb_partial.specs.Copies.{untouched};
ghost use Rattle.sb_block_tests.specs.declared.board.TheConstants.{CORES};

use crate::bundle::loaded;
use sb_block::{Block, MadeStep, Partial, Stop, run_block};
use sb_load::Loaded;
use sb_machine::{CoreState, Machine};
use sb_memory::{Frame, PAGE_SIZE, PhysAddr};
use sb_trace::{Event, line_of_mark};
use std::alloc::{AllocError, Global};
use std::test::Fail;

/// How many cores the machine has.
pub const CORES: u8 = 2;

/// The machine at the start. Contracts see how many cores and frames it has.
fn started(alloc: Global, loaded: &Loaded) -> Result<Machine, AllocError>
    ensures cores { IfOk result (λ machine. length machine.cores ≡ length loaded.now.bundle.cores) }
    ensures frames { IfOk result (λ machine. frame_count machine.memory ≡ loaded.now.bundle.frames) }
{
    Machine::new(alloc, loaded)
}

/// Copies of no frame, of so many.
fn no_copies(frames: u32) -> Partial
    requires some { 1 ≤ frames }
    requires few { frames ≤ 8192 }
    ensures untouched { result ≡ untouched result.given }
    ensures frames { frame_count result.given ≡ frames }
{
    Partial::new(frames)
}

/// A block of a core, without the claims of its contract, which tests do not need.
fn block_of(
    alloc: Global,
    part: &mut Partial,
    core: u8,
    start: &CoreState,
    limit: u32,
) -> Result<Block, Stop>
    requires some { 1 ≤ limit }
    requires untouched { part.old ≡ untouched part.old.given }
    requires walks { HasWalks (frame_count part.old.given) start.now }
    ensures { part.new ≡ untouched part.old.given }
{
    run_block(alloc, part, core, start, limit)
}

/// A step of a core, without the claims of its contract.
fn event_of(machine: &mut Machine, core: u8) -> Event
    requires { core < length machine.old.cores }
    ensures cores { length machine.new.cores ≡ length machine.old.cores }
    ensures frames { frame_count machine.new.memory ≡ frame_count machine.old.memory }
{
    machine.step(core).event
}

/// A machine, and copies of its frames.
#[derive(Drop)]
pub struct Board {
    machine: Machine,
    part: Partial,
    frames: u32,
    ghost has_cores: { CORES ≤ length machine.cores },
    ghost has_frames: { frame_count machine.memory ≡ frames },
    ghost is_untouched: { part ≡ untouched part.given },
    ghost has_copies: { frame_count part.given ≡ frames },
}

impl Board {
    /// The machine of the client and the server at its start, and no copy.
    pub fn new(alloc: Global) -> Result<Board, Fail> {
        Board::of(alloc, &loaded(alloc)?)
    }

    /// The machine of what was loaded at its start, and no copy.
    pub fn of(alloc: Global, loaded: &Loaded) -> Result<Board, Fail> {
        let frames = loaded.bundle().frames;
        if frames == 0 || frames > 8192 || loaded.bundle().cores.items().len() < CORES as usize {
            return Err("the bundle has two cores, and few frames".into());
        }
        Ok(Board {
            machine: started(alloc, loaded)?,
            part: no_copies(frames),
            frames,
        })
    }

    /// The state of a core.
    pub fn core_state(&self, core: u8) -> Option<CoreState> {
        if core < CORES {
            Some(self.machine.core_state(core))
        } else {
            None
        }
    }

    /// The word at an address of memory, where one stands there.
    pub fn word(&self, at: u64) -> Option<u64> {
        if at % 8 == 0 && at < PAGE_SIZE * u64::from(self.frames) {
            Some(self.machine.word(PhysAddr(at)))
        } else {
            None
        }
    }

    /// A step of a core of the machine.
    pub fn step(&mut self, core: u8) -> Option<Event> {
        if core < CORES {
            Some(event_of(&mut self.machine, core))
        } else {
            None
        }
    }

    /// The line of a step with its mark on the machine.
    pub fn marked(&self, core: u8, step: &MadeStep) -> Option<Event> {
        let fact = step.fact;
        match step.event {
            Event::Step { rip } if core < CORES => {
                let mark = self
                    .machine
                    .mark(core, fact.view, rip, fact.next, fact.scratch);
                Some(line_of_mark(mark, rip))
            }
            event => Some(event),
        }
    }

    /// Gives up all copies.
    pub fn drop_all(&mut self) {
        self.part.drop_all();
    }

    /// Gives a copy of a frame, as it is now.
    pub fn give(&mut self, alloc: Global, frame: Frame) -> Result<(), Fail> {
        if frame.0 >= self.frames {
            return Err("there is such a frame".into());
        }
        self.part
            .give(alloc, frame, self.machine.frame_bytes(frame))?;
        Ok(())
    }

    /// A block of a core from where the machine is, on the copies that were given.
    pub fn block(&mut self, alloc: Global, core: u8, limit: u32) -> Option<Result<Block, Stop>> {
        if core < CORES && limit > 0 {
            let start = self.machine.core_state(core);
            Some(block_of(alloc, &mut self.part, core, &start, limit))
        } else {
            None
        }
    }
}

/// Gives each frame that is asked for, until there is a block, or the step is the kernels'. Afterwards `asked` has these
/// frames, in the order in which they were asked for.
pub fn ask(
    alloc: Global,
    board: &mut Board,
    core: u8,
    limit: u32,
    asked: &mut Vec<u32>,
) -> Result<Option<Block>, Fail> {
    for _ in 0..64 {
        match board.block(alloc, core, limit) {
            Some(Ok(block)) => return Ok(Some(block)),
            Some(Err(Stop::Kernel)) => return Ok(None),
            Some(Err(Stop::NeedFrame(frame))) => {
                asked.push(frame.0)?;
                board.give(alloc, frame)?;
            }
            Some(Err(Stop::Memory)) | None => return Err("there is such a core, and memory".into()),
        }
    }
    Err("a block needs fewer frames".into())
}

/// The block of a core from where the machine is, on no other copies than those that it asks for.
pub fn fresh_block(
    alloc: Global,
    board: &mut Board,
    core: u8,
    limit: u32,
) -> Result<Option<Block>, Fail> {
    let mut asked = Vec::new(alloc);
    board.drop_all();
    ask(alloc, board, core, limit, &mut asked)
}

/// Steps a core until it is at an address.
pub fn step_to(board: &mut Board, core: u8, rip: u64) -> Result<(), Fail> {
    for _ in 0..200 {
        match board.core_state(core) {
            Some(state) if state.regs.rip == rip => return Ok(()),
            _ => board.step(core),
        };
    }
    Err("the core comes to that address".into())
}
