//! The slots of a rewrite area.

/// The slot of an instruction that was moved.
#[derive(Clone, Copy, Debug, PartialEq, Eq)]
pub struct Slot {
    /// The address at which the instruction stood, where a jump to the slot stands now.
    pub start: u64,
    /// The address of its first instruction.
    pub at: u64,
    /// The address of the instruction in it that does the work.
    pub main: u64,
    /// The address behind its last byte.
    pub end: u64,
    /// Whether that instruction loads the number of a constant from the scratch page, which is no access of the text.
    pub loads_constant: bool,
}

/// An instruction of a slot behind which the slot has another one.
#[derive(Clone, Copy, Debug, PartialEq, Eq)]
pub struct Pass {
    /// The address of the instruction.
    pub from: u64,
    /// The address of the next one.
    pub to: u64,
}
