//! What was changed in a text.

use sb_list::Listed;

/// A start at which the text has other bytes than before.
#[derive(Clone, Copy, Debug, PartialEq, Eq)]
pub struct Edit {
    /// The address of the instruction.
    pub at: u64,
    /// How many bytes it had.
    pub old_len: u8,
    /// The address of its slot and the slot's number of bytes, where it was moved.
    pub slot: Option<(u64, u8)>,
}

/// Edits, in the order of their addresses.
pub type Edits = Listed<Edit>;

/// An instruction that was moved.
#[derive(Clone, Copy, Debug, PartialEq, Eq)]
pub struct Move {
    /// The address at which it stood, where a jump to its slot stands now.
    pub start: u64,
    /// The address of the instruction in the slot that does its work.
    pub main: u64,
}
