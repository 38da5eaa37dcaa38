//! Where the instructions of a rewritten text stand, and what a step at one of them is to the original text.
//!
//! Inside: the starts of a text's instructions, one bit an address (`Starts`); the slot of a moved instruction (`Slot`) and
//! the instructions of slots that follow one another (`Pass`); all of them for one text (`TextMap`); and the mark of a step
//! (`Mark`, `TextMap::mark`), as docs/MARKS.md has it. Not inside: how a text is rewritten (`sb_rewrite`), and what an
//! instruction accesses (`sb_exec`).
//!
//! ```text
//! map.mark(0x400000, 0x1000, false)          // Extra: the jump to a slot stands there
//! map.mark(0x400005, 0x400006, false)        // Stray: no instruction of the text starts at 400006
//! ```
#![tactic(auto)]

mod mark;
mod slot;
mod starts;
mod text_map;

pub use mark::Mark;
pub use slot::{Pass, Slot};
pub use starts::Starts;
pub use text_map::TextMap;
