//! The bus of a core over a memory that has all its frames: one nested walk an access.
//!
//! To instructions it is the `NestedBus` of `sb_nested` over that memory: its clauses are the same, and say the same answers and
//! the same memory after a store. But where the bytes of an access lie in one page it makes one walk, for the first of them, since
//! the others lie behind it in memory (`specs/LiesAt.antt`); `NestedBus` makes one for each byte, because any memory may note
//! which words are read. A memory that has all its frames notes nothing.
//!
//! Inside: the one walk (`place`), numbers read and written where it led (`number`), the bus (`bus`), and the
//! instruction at an address, decoded from the bytes of its page (`instruction`). Where an access goes on into a second page, an
//! instruction does not end in its page, or the walk is refused, `NestedBus` answers. Not inside: the walk itself (`sb_nested`).
//!
//! ```text
//! // 400FF8 leads to C0FF8, and the page behind it elsewhere
//! CoreBus::new(&mut memory, eptp, cr3).load(Linear(0x400FF8), 8)      // one walk, and the word at C0FF8
//! CoreBus::new(&mut memory, eptp, cr3).load(Linear(0x400FFC), 8)      // a walk for each of 8 bytes
//! ```
#![tactic(auto)]

mod bus;
mod instruction;
mod number;
mod place;

pub use bus::CoreBus;
pub use instruction::fetch_next;
