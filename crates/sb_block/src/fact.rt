//! What is told of a step that a core made by itself.

use sb_list::Listed;
use sb_trace::Event;

/// What the mark of a step needs of it. The text by which it is marked is known only where the step is put into a machine.
#[derive(Clone, Copy, Debug, PartialEq, Eq)]
pub struct Fact {
    /// The view before the step.
    pub view: u16,
    /// RIP behind it.
    pub next: u64,
    /// Whether its instruction accesses the scratch page.
    pub scratch: bool,
}

/// A step that was made: its line, without a mark, and what the mark needs.
#[derive(Clone, Copy, Debug, PartialEq, Eq)]
pub struct MadeStep {
    pub event: Event,
    pub fact: Fact,
}

/// Steps in their order.
pub type MadeSteps = Listed<MadeStep>;
