//! Laws of the definitions: calls of them do nothing.

ghost use Rattle.sb_load.specs.FirstState.{StartsHaveFewThreads};
ghost use Rattle.sb_load.specs.Loading.{OneAnswer};

/// What `load` promises leaves one answer for each bundle, but for want of memory.
pub fn one_answer()
    ensures { OneAnswer }
{}

/// The state that a bundle starts has no more threads than the page tables serve (docs/LAYOUT.md).
pub fn starts_have_few_threads()
    ensures { StartsHaveFewThreads }
{}
