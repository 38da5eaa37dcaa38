//! The laws of the machine.

ghost use Rattle.sb_machine.specs.Laws.{StepsArePlain, StepsWithMarkArePlain, MachinesShow, OwnStepsArePlain, OwnStepsWithMarksArePlain};

use sb_landing::steps_stay_beside;

/// A step of a machine that stands for a state of the plain machine is a step of the plain machine from there, with the same
/// line; with its mark it is one with the same mark; and a machine shows the state for which it stands.
pub fn steps_are_plain()
    ensures steps { StepsArePlain }
    ensures marked { StepsWithMarkArePlain }
    ensures shows { MachinesShow }
{
    steps_stay_beside();
}

/// Steps that a core makes by itself, from a machine that stands for a state of the plain machine, are a run of the plain machine
/// from there, with the same lines, of which none is idle; with their marks they are one with the same marks.
pub fn own_steps_are_plain()
    ensures steps { OwnStepsArePlain }
    ensures marked { OwnStepsWithMarksArePlain }
{
    steps_are_plain();
}
