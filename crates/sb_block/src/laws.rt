//! The laws of blocks: functions without a body, each of which states some.

ghost use Rattle.sb_block.specs.Block.{BlocksHold, OneBlock, OneOutcome, OneOwnStep, OwnStepsAreOne};

/// A block is so many steps of each machine in which the places that were read hold the values that were seen, where its core
/// runs and is as the block begins. Nothing is asked of the copies, which may come from different moments.
pub fn blocks_hold()
    ensures { BlocksHold }
{}

/// A core, a number of steps and the words that they read decide the block, and a step over copies comes to one thing.
pub fn blocks_are_functions()
    ensures block { OneBlock }
    ensures outcome { OneOutcome }
{}

/// A machine has one step of a core in which the kernels have no part, and one run of so many: the lines and the machine behind
/// them.
pub fn own_steps_are_one()
    ensures step { OneOwnStep }
    ensures steps { OwnStepsAreOne }
{}
