//! Laws of the memory of the plain machine, as functions with nothing to run.

ghost use Rattle.sb_origin_plain.specs.Laws.{PlainHasWords, PlainAreBeside, PlainKeepsBytes, SoundHaveBytes, SoundHolds, ScratchMayDiffer, OtherScratchBytes, SoundRelated, PlainRuns, PlainHaveWords, PlainAllBeside, SoundHoldsAll, SoundThreadsRelated, PlainThreadsRun};

/// The memory of a thread in a view keeps words in its scratch page.
pub fn plain_words()
    ensures { PlainHasWords }
{}

/// It gives and takes the bytes that the other memory does, outside the scratch page.
pub fn plain_beside()
    ensures { PlainAreBeside }
{}

/// What it loads is a byte, as in each sound state, and stores keep it so.
pub fn plain_bytes()
    ensures kept { PlainKeepsBytes }
    ensures sound { SoundHaveBytes }
{}

/// A sound state holds the words of the scratch page of each view that shows a process.
pub fn sound_holds()
    ensures { SoundHolds }
{}

/// A state is beside each that differs from it in what stands in one scratch page.
pub fn scratch_differs()
    ensures beside { ScratchMayDiffer }
    ensures bytes { OtherScratchBytes }
{}

/// A thread of a sound state begins related to the same thread of the original code.
pub fn sound_related()
    ensures { SoundRelated }
{}

/// On plain memory rewritten code runs as the original code, where no step is stray.
pub fn plain_runs()
    ensures { PlainRuns }
{}

/// Several threads, each in its view: each keeps words in its own scratch page and leaves those of the others, and a sound
/// state holds the words of all.
pub fn plain_threads()
    ensures words { PlainHaveWords }
    ensures beside { PlainAllBeside }
    ensures sound { SoundHoldsAll }
{}

/// The threads of a sound state begin related to those of the original code.
pub fn sound_threads_related()
    ensures { SoundThreadsRelated }
{}

/// On plain memory several threads run rewritten code as the original code, where no step is stray.
pub fn plain_threads_run()
    ensures { PlainThreadsRun }
{}
