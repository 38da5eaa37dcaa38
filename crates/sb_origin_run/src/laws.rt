//! Laws of steps and runs, as functions with nothing to run.

ghost use Rattle.sb_origin_run.specs.Laws.{OriginalState, SlotAccesses, StepsAlike, RunsAlike, WordsAreRegs, StepsKeepWords, WordsRunStraight, WordsThreadsStraight, ThreadsRunAlike, TextStands, RewrittenRuns, RewrittenThreadsRun, RewrittenSystemRuns};

/// Rewritten code on one memory, and the original code on another. It has no values: a type stands for them.
pub trait Codes {
    ghost use Rattle.std.specs.Prelude.{ℕ};
    ghost use Rattle.sb_bus.specs.declared.stop.BusStop.{BusStop};
    ghost use Rattle.sb_exec.specs.Interface.{Interface};
    ghost use Rattle.sb_original.specs.Words.{Words};
    ghost use Rattle.sb_origin_run.specs.Machine.{Code};
    ghost use Rattle.sb_origin_run.specs.Position.{Position};

    ghost Meaning: { Type 0 };

    ghost Account: { Type 0 };

    ghost Other: { Type 0 };

    ghost OtherAccount: { Type 0 };

    ghost bus: { Interface Meaning Account };

    ghost original: { Interface Other OtherAccount };

    /// The rewritten memory holds these words, and is the other one beside its scratch page.
    ghost holds: { Words → Meaning → Other → Type 0 };

    /// An access to bytes outside the scratch page.
    ghost outside: { ℕ → ℕ → Type 0 };

    ghost naming: { BusStop → BusStop };

    /// The rewritten code, and the original one.
    ghost target: { Code };

    ghost source: { Code };

    /// Where each address lies in the rewritten code.
    ghost place: { ℕ → Position };

    /// Loads from the memory give bytes.
    ghost has_bytes: { Meaning → Type 0 };
}

/// The original registers of a thread are a function of its registers and its words.
pub fn original_state<R: Codes>()
    ensures { OriginalState R.bus R.holds }
{}

/// Only main accesses anything outside the scratch page, and it makes the original's accesses.
pub fn slot_accesses<R: Codes>()
    ensures { SlotAccesses R.bus R.holds }
{}

/// A step that is not stray is extra, or a step of the original code.
pub fn steps_alike<R: Codes>()
    ensures { StepsAlike R.bus R.original R.holds R.outside R.naming R.target R.source R.place }
{}

/// The lines of a run without stray steps are, without the extra ones, those of the original code.
pub fn runs_alike<R: Codes>()
    ensures { RunsAlike R.bus R.original R.holds R.outside R.naming R.target R.source R.place }
{}

/// Registers of 64 bits are those of a machine. A step leaves them so where the code has instructions and the memory gives
/// bytes, and a run that begins with them needs no more than that no step is stray.
pub fn registers_stay<R: Codes>()
    ensures words { WordsAreRegs }
    ensures steps { StepsKeepWords R.bus R.has_bytes R.target }
    ensures runs { WordsRunStraight R.bus R.holds R.outside R.has_bytes R.target R.source R.place }
{}

/// The same of several threads, for each of which the codes and the memory are so.
pub fn threads_run_alike<R: ThreadCodes>()
    ensures { ThreadsRunAlike R.is_thread R.buses R.originals R.holds R.outside R.naming R.targets R.sources R.places }
{}

/// A run of several threads that begin with registers of 64 bits needs no more than that no step is stray.
pub fn registers_of_threads_stay<R: ThreadCodes>()
    ensures { WordsThreadsStraight R.is_thread R.buses R.holds R.outside R.has_bytes R.targets R.sources R.places }
{}

/// What the table of forms has made of a code stands for it.
pub fn text_stands<R: Codes>()
    ensures { TextStands R.bus R.holds R.target R.source R.place }
{}

/// Code that the table of forms has made runs as the code of which it was made.
pub fn rewritten_runs<R: Codes>()
    ensures { RewrittenRuns R.bus R.original R.holds R.outside R.naming R.target R.source R.place }
{}

/// The same of several threads.
pub fn rewritten_threads_run<R: ThreadCodes>()
    ensures { RewrittenThreadsRun R.is_thread R.buses R.originals R.holds R.outside R.naming R.targets R.sources R.places }
{}

/// Rewritten code of several threads on one memory, and the original code on another.
pub trait ThreadCodes {
    ghost use Rattle.std.specs.Prelude.{ℕ};
    ghost use Rattle.sb_bus.specs.declared.stop.BusStop.{BusStop};
    ghost use Rattle.sb_exec.specs.Interface.{Interface};
    ghost use Rattle.sb_original.specs.Words.{Words};
    ghost use Rattle.sb_origin_run.specs.Machine.{Code};
    ghost use Rattle.sb_origin_run.specs.Position.{Position};

    ghost Meaning: { Type 0 };

    ghost Account: { Type 0 };

    ghost Other: { Type 0 };

    ghost OtherAccount: { Type 0 };

    /// The numbers of the threads.
    ghost is_thread: { ℕ → Type 0 };

    /// The memory as each thread sees it.
    ghost buses: { ℕ → Interface Meaning Account };

    ghost originals: { ℕ → Interface Other OtherAccount };

    /// The rewritten memory holds these words of each thread, and is the other one beside all scratch pages.
    ghost holds: { (ℕ → Words) → Meaning → Other → Type 0 };

    ghost outside: { ℕ → ℕ → ℕ → Type 0 };

    ghost naming: { BusStop → BusStop };

    ghost targets: { ℕ → Code };

    ghost sources: { ℕ → Code };

    ghost places: { ℕ → ℕ → Position };

    /// Loads from the memory give bytes.
    ghost has_bytes: { Meaning → Type 0 };
}

/// A kernel beside rewritten code of several threads, and one beside the original code.
pub trait Systems {
    ghost use Rattle.std.specs.Prelude.{ℕ};
    ghost use Rattle.sb_bus.specs.declared.stop.BusStop.{BusStop};
    ghost use Rattle.sb_original.specs.Words.{Words};
    ghost use Rattle.sb_origin_run.specs.Position.{Position};
    ghost use Rattle.sb_origin_run.specs.Served.{System};

    /// What only the kernel changes: views, and which pages are executable.
    ghost Mode: { Type 0 };

    ghost Meaning: { Type 0 };

    ghost Account: { Type 0 };

    ghost Other: { Type 0 };

    ghost OtherAccount: { Type 0 };

    /// The numbers of the threads.
    ghost is_thread: { ℕ → Type 0 };

    ghost system: { System Mode Meaning Account };

    ghost original: { System Mode Other OtherAccount };

    /// In each mode the rewritten memory holds these words of each thread, and is the other one beside all scratch pages.
    ghost holds: { Mode → (ℕ → Words) → Meaning → Other → Type 0 };

    ghost outside: { ℕ → ℕ → ℕ → Type 0 };

    ghost naming: { BusStop → BusStop };

    ghost places: { Mode → ℕ → ℕ → Position };
}

/// A run of several threads with a kernel that serves both codes alike.
pub fn rewritten_system_runs<R: Systems>()
    ensures { RewrittenSystemRuns R.is_thread R.system R.original R.holds R.outside R.naming R.places }
{}
