//! Laws of a rewritten process, as functions with nothing to run.

ghost use Rattle.sb_origin_process.specs.Process.{ProcessHaveTexts, FetchesStay, ProcessRuns};

/// A view that shows the process fetches the rewritten text on the one machine, and the original text on the other.
pub fn process_texts()
    ensures { ProcessHaveTexts }
{}

/// An instruction changes nothing that is fetched, in any view of any thread.
pub fn fetches_stay()
    ensures { FetchesStay }
{}

/// A thread runs the rewritten text as it runs the original text on the other machine, where no step is stray.
pub fn process_runs()
    ensures { ProcessRuns }
{}
