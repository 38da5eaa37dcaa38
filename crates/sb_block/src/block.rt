//! Blocks.

ghost use Rattle.std.specs.Prelude.{◌≡◌, ◌<◌, ◌≤◌, ◌^◌, IfErr, IfOk};
ghost use Rattle.sb_memory.specs.Physical.{frame_count};
ghost use Rattle.sb_machine.specs.OwnSteps.{HasWalks};
ghost use Rattle.sb_block.specs.Answers.{IsGathered, IsRunOf, Refuses, told};
ghost use Rattle.sb_block.specs.Block.{BlockHolds, IsBlock};
ghost use Rattle.sb_block.specs.Places.{AreReadsIn, AreWritesIn};
ghost use Rattle.sb_partial.specs.Copies.{untouched};

use crate::collect::{reads_of, writes_of};
use crate::fact::{MadeStep, MadeSteps};
use crate::one::StepStop;
use crate::run::make_steps;
use sb_machine::{CoreState, Place, Seen, Seens};
use sb_memory::{Frame, Phys};
use sb_partial::Partial;
use std::alloc::{AllocError, Global};

/// Steps of a core, the words that they read with the values that they had, and the words that they wrote.
#[derive(Debug, Drop)]
pub struct Block {
    pub core: u8,
    pub before: CoreState,
    pub after: CoreState,
    /// How many lines the core had made, and then words in the order in which they were first read.
    pub reads: Seens,
    /// Each word that was written, with its last value.
    pub writes: Seens,
    /// Each step, with its line.
    pub steps: MadeSteps,
}

/// Why there is no block.
#[derive(Clone, Copy, Debug, PartialEq, Eq)]
pub enum Stop {
    /// The first step meets this frame, of which no copy was given.
    NeedFrame(Frame),
    /// The first step is the kernels' to do.
    Kernel,
    /// Memory could not be had.
    Memory,
}

/// Why there is no block, where this is why the first step was not made.
fn none_made(made: Result<(), StepStop>) -> Stop
    ensures { IfErr made (λ why. result ≡ told why) }
{
    match made {
        Err(StepStop::NeedFrame(frame)) => Stop::NeedFrame(frame),
        Err(StepStop::Kernel) | Ok(()) => Stop::Kernel,
    }
}

/// The block of these steps, by what the copies note.
fn gather(
    alloc: Global,
    part: &Partial,
    core: u8,
    before: CoreState,
    after: CoreState,
    steps: Vec<MadeStep>,
) -> Result<Block, AllocError>
    requires { frame_count part.now.given < 2 ^ 32 }
    ensures { IfOk result (λ block. IsGathered core before after steps.items part.now
        block.core block.before block.after block.steps block.reads block.writes) }
{
    let own = Seen {
        place: Place::Core(core),
        value: before.made,
    };
    let reads = reads_of(alloc, part, own)?;
    let writes = writes_of(alloc, part)?;
    Ok(Block {
        core,
        before,
        after,
        reads,
        writes,
        steps: MadeSteps::new(steps),
    })
}

/// Makes at most so many steps of a core over copies of frames.
///
/// They end where so many are made, or the next one meets a frame of which no copy was given, or is the kernels' to do. After
/// each answer the copies are as they were given, and no read or write is kept.
///
/// # Errors
///
/// Where not even one step is made: `NeedFrame` with the frame that it meets first, or else `Kernel`. `Memory` is want of memory.
pub fn run_block(
    alloc: Global,
    part: &mut Partial,
    core: u8,
    start: &CoreState,
    limit: u32,
) -> Result<Block, Stop>
    requires some { 1 ≤ limit }
    requires untouched { part.old ≡ untouched part.old.given }
    requires walks { HasWalks (frame_count part.old.given) start.now }
    ensures made { IfOk result (λ block. IsRunOf core start.now limit part.old.given
        block.core block.before block.after block.steps block.reads block.writes) }
    ensures block { IfOk result (λ block. IsBlock (frame_count part.old.given) core start.now
        block.steps block.after block.reads block.writes) }
    ensures holds { IfOk result (λ block. BlockHolds (frame_count part.old.given) core start.now
        block.steps block.after block.reads block.writes) }
    ensures walks { IfOk result (λ block. HasWalks (frame_count part.old.given) block.after) }
    ensures reads { IfOk result (λ block. AreReadsIn (frame_count part.old.given) core block.reads) }
    ensures writes { IfOk result (λ block. AreWritesIn (frame_count part.old.given) block.writes) }
    ensures refused { IfErr result (λ stop. Refuses start.now part.old.given stop) }
    ensures copies { part.new ≡ untouched part.old.given }
{
    // a memory has less than 2^32 frames
    part.frames();
    let mut steps = match Vec::with_capacity(alloc, limit as usize) {
        Ok(steps) => steps,
        Err(_) => return Err(Stop::Memory),
    };
    let mut after = *start;
    let made = make_steps(part, &mut after, limit, &mut steps);
    if steps.is_empty() {
        part.restore();
        return Err(none_made(made));
    }
    let block = gather(alloc, part, core, *start, after, steps);
    part.restore();
    match block {
        Ok(block) => Ok(block),
        Err(_) => Err(Stop::Memory),
    }
}
