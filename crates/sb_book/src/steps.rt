//! The steps of a block, made on a machine.

ghost use Rattle.std.specs.Prelude.{◌≡◌, ◌<◌, List, length};
ghost use Rattle.sb_trace.specs.declared.event.Event.{Event};
ghost use Rattle.sb_machine.specs.Machine.{Machine};
ghost use Rattle.sb_machine.specs.Marks.{OwnStepsWithMarks};
ghost use Rattle.sb_machine.specs.OwnSteps.{OwnSteps};
ghost use Rattle.sb_block.specs.Marked.{events_marked};
ghost use Rattle.sb_book.specs.Commit.{LeadsBehind};

use crate::flight::leaves_undecided;
use sb_block::{Block, own_steps_are_one};
use sb_machine::Machine;

/// Makes so many steps of a core, one after another.
fn step_through(machine: &mut Machine, core: u8, count: usize)
    requires { core < length machine.old.cores }
    ensures { (events : List Event) (new : Machine) → OwnSteps machine.old core events new → length events ≡ count
        → machine.new ≡ new }
{
    own_steps_are_one();
    for _ in 0..count {
        machine.step(core);
    }
}

/// Makes the steps of a block on a machine on which they lead to the core and the words behind it.
///
/// Where a flight begins in them that is not decided at their end, the machine keeps more than the block tells of it: where the
/// thread stood at the VMFUNC. So it makes those steps itself.
pub fn make_steps(machine: &mut Machine, block: &Block)
    requires core { block.now.core < length machine.old.cores }
    requires leads { LeadsBehind machine.old block.now.core block.now.steps block.now.after block.now.writes }
    ensures { OwnStepsWithMarks machine.old block.now.core (events_marked machine.old block.now.core block.now.steps)
        machine.new }
{
    let steps = block.steps.items();
    if leaves_undecided(steps) {
        step_through(machine, block.core, steps.len());
    } else {
        machine.apply(block.core, &block.after, &block.writes);
    }
}
