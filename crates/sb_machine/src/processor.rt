//! The cores of the machine.

use sb_insn::Regs;
use sb_memory::Frame;
use sb_state::EndKind;

/// What a core's processor holds: registers, the words of its walks, and where its thread is.
#[derive(Clone, Copy, Debug, PartialEq, Eq)]
pub struct CoreState {
    pub regs: Regs,
    /// The EPT pointer of the present view.
    pub eptp: u64,
    /// The root of the page tables of the thread's home, for good.
    pub cr3: u64,
    /// The frame of the thread's EPTP list, for good.
    pub list: Frame,
    /// The index of the EPT pointer in that list.
    pub view: u16,
    /// In flight, the phase of the landing that the next step does.
    pub phase: Option<u8>,
    /// How many lines the core has made, modulo 2^64.
    pub made: u64,
}

/// Where a thread stood at the VMFUNC of a call that is not decided yet.
#[derive(Clone, Copy, Debug, PartialEq, Eq)]
pub struct Origin {
    pub regs: Regs,
    pub view: u16,
}

/// A core, with its thread.
#[derive(Clone, Copy, Debug, PartialEq, Eq)]
pub struct Core {
    pub state: CoreState,
    pub end: EndKind,
    pub origin: Option<Origin>,
}
