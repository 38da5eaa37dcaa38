//! Steps of a core over copies, one after another.

ghost use Rattle.std.specs.Prelude.{◌≡◌, ◌≤◌, ◌<◌, ◌++◌, [], ◌∷◌, IfErr, IfOk, length, vec_len};
ghost use Rattle.std.specs.Vec.{vec_capacity};
ghost use Rattle.sb_memory.specs.Physical.{frame_count};
ghost use Rattle.sb_agree.specs.Noted.{nothing, noted_rule};
ghost use Rattle.sb_partial.specs.Copies.{untouched};
ghost use Rattle.sb_machine.specs.OwnSteps.{HasWalks};
ghost use Rattle.sb_block.specs.Answers.{EndsRun, Stepped};
ghost use Rattle.sb_block.specs.Run.{at, CoreRuns};

use crate::fact::MadeStep;
use crate::one::{StepStop, step};
use sb_machine::CoreState;
use sb_partial::Partial;

/// Begins a step, makes it, and adds it.
fn next(
    part: &mut Partial,
    core: &mut CoreState,
    steps: &mut Vec<MadeStep>,
) -> Result<MadeStep, StepStop>
    requires walks { HasWalks (frame_count part.old.memory) core.old }
    requires room { vec_len steps.old < vec_capacity steps.old }
    ensures step { Stepped noted_rule (at core.old part.old.memory part.old.noted)
        (at core.new part.new.memory part.new.noted) result }
    ensures added { IfOk result (λ step. steps.new.items ≡ steps.old.items ++ step ∷ []) }
    ensures none { IfErr result (λ _. steps.new.items ≡ steps.old.items) }
    ensures room { vec_capacity steps.old ≤ vec_capacity steps.new }
    ensures began { part.new.began ≡ part.old.noted }
    ensures given { part.new.given ≡ part.old.given }
    ensures walks { HasWalks (frame_count part.new.memory) core.new }
    ensures frames { frame_count part.new.memory ≡ frame_count part.old.memory }
{
    part.begin();
    let made = step(part, core)?;
    let _ = steps.push(made);
    Ok(made)
}

/// Makes steps up to a limit, or until one is not made, and adds them. What was noted until the last of them is what `began`
/// says.
#[tactic(auto, using(crate::proofs::Pushing::runs_none, crate::proofs::Pushing::run_pushed))]
pub fn make_steps(
    part: &mut Partial,
    core: &mut CoreState,
    limit: u32,
    steps: &mut Vec<MadeStep>,
) -> Result<(), StepStop>
    requires untouched { part.old ≡ untouched part.old.given }
    requires walks { HasWalks (frame_count part.old.given) core.old }
    requires empty { steps.old.items ≡ [] }
    requires room { limit ≤ vec_capacity steps.old }
    ensures runs { CoreRuns noted_rule (at core.old part.old.given nothing) steps.new.items
        (at core.new part.new.memory part.new.began) }
    ensures ends { EndsRun limit (length steps.new.items) (at core.new part.new.memory part.new.began) result }
    ensures given { part.new.given ≡ part.old.given }
    ensures walks { HasWalks (frame_count part.old.given) core.new }
{
    for _ in 0..limit {
        next(part, core, steps)?;
    }
    part.begin();
    Ok(())
}
