//! What a core reads and writes outside its own registers.

use sb_list::Listed;

/// What is read or written: a word of physical memory, or, read alone, how many lines a core has made.
#[derive(Clone, Copy, Debug, PartialEq, Eq)]
pub enum Place {
    /// The word at this physical address, a multiple of 8.
    Word(u64),
    /// The lines of the core of this number, modulo 2^64.
    Core(u8),
}

/// A place with the value that stands there.
#[derive(Clone, Copy, Debug, PartialEq, Eq)]
pub struct Seen {
    pub place: Place,
    pub value: u64,
}

/// Places with their values, each place once.
pub type Seens = Listed<Seen>;
