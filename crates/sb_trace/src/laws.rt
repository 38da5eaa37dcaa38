//! The laws of runs of the plain machine: functions without a body, each of which states one (docs/LAWS.md).

ghost use Rattle.sb_trace.specs.Laws.{StartIsSound, StepsKeepSound, RunsKeepSound, LandingsDrop, StepsDrop, StepsWithMarkDrop, HasOneRun, FlightLines, StepsChange, StepsWithMarkChange, AddedPagesAreNew, OnePattern, RunsKeepOneSwitch, SwitchStands, HasOneText, TextsAreOfLawfulRuns, ReportsDrop, ReportsAreOfLawfulRuns};
ghost use Rattle.sb_trace.specs.Marks.{StepsWithMark, StepsOnceWithMark};

/// What holds in each state of a run (`IsSound`) holds at the start of at most 16 images and 32 threads: of sound images, whose
/// texts and rewrite areas hold VMFUNC's bytes nowhere, of threads whose homes are there, and of key words.
pub fn start_is_sound()
    ensures { StartIsSound }
{}

/// Each step keeps a state sound, and so does each run.
pub fn steps_keep_sound()
    ensures step { StepsKeepSound }
    ensures run { RunsKeepSound }
{}

/// A run from a sound state, its landing lines and their entries of the schedule left out, is a run of the machine that
/// calls in one step: the other lines in their order, and the last state without its flights.
///
/// `step` says it of one step, and `marked` of one with its mark (docs/MARKS.md), as those of runs are. `one` and `once` say that
/// each of the two machines has one run from a state.
pub fn landings_can_be_dropped()
    ensures run { LandingsDrop }
    ensures step { StepsDrop }
    ensures marked { StepsWithMarkDrop }
    ensures one { HasOneRun StepsWithMark }
    ensures once { HasOneRun StepsOnceWithMark }
{}

/// A step of a thread in flight has the landing line of its phase, or, where the phase decides, the line of the decision.
pub fn flights_decide()
    ensures { FlightLines }
{}

/// What a step may change, by its line.
///
/// An instruction changes only bytes of pages that its thread may write in its view; an entry only the lowest free bit of the
/// server's pool word; of system calls, registration, binding and a change of mode only what they are for; a landing line only
/// flights; an idle step nothing; and all else no page. Of threads, a step changes only the one that makes it. `marked` says that
/// the line of an instruction permits the same with each mark.
pub fn steps_change()
    ensures step { StepsChange }
    ensures marked { StepsWithMarkChange }
{}

/// In every view of every thread, VMFUNC's bytes may be fetched at `70000040`, and at no other address.
///
/// `run` says it of each state of a run from a sound state.
pub fn one_pattern()
    ensures only { OnePattern }
    ensures run { RunsKeepOneSwitch }
    ensures there { SwitchStands }
{}

/// From one state, by one schedule, one text can be written of a run.
///
/// `lawful` says that from a sound state it is the text of a run whose landing lines can be dropped, and in each state of
/// which VMFUNC's bytes may be fetched at one address alone.
///
/// `dropped` says that the report without its lines `landing` and `flight` is the report of the machine that calls in one
/// step, and `report` joins the two.
pub fn runs_have_one_text()
    ensures one { HasOneText }
    ensures lawful { TextsAreOfLawfulRuns }
    ensures dropped { ReportsDrop }
    ensures report { ReportsAreOfLawfulRuns }
{}

/// Each page that a step adds has a name that no page had.
pub fn added_pages_are_new()
    ensures { AddedPagesAreNew }
{}
