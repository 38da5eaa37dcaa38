//! The last state of a run, as the report shows it.

use sb_insn::Regs;
use sb_list::Listed;
use sb_state::EndKind;

/// A thread at the end of a run.
#[derive(Clone, Copy, Debug, PartialEq, Eq)]
pub struct ThreadEnd {
    /// The process that it belongs to.
    pub home: u32,
    /// 0 for its home view, else the index of a binding.
    pub view: u16,
    /// The process that its view shows.
    pub present: u32,
    pub state: EndKind,
    pub regs: Regs,
    /// The phase that its next step does, where it is in flight.
    pub flight: Option<u8>,
}

/// Threads in the order of their numbers.
pub type ThreadEnds = Listed<ThreadEnd>;

/// The state at the end of a run.
#[derive(Debug, Drop)]
pub struct EndState {
    pub threads: ThreadEnds,
    /// The number of free frames.
    pub free: u32,
    /// The number of key words that are left.
    pub keys: u32,
}
