//! The bus of a core over copies of frames: one nested walk a page.
//!
//! To instructions it is the `NestedBus` of `sb_nested` over a `Partial`: its clauses are the same, and say the same answers,
//! the same memory after a store and the same words noted. `NestedBus` makes a walk for each byte. But copies note each word
//! once, so a walk that was made notes no more when it is made again, and the other bytes of its page lie beside the first
//! (`specs/MadeWalk.antt`). So this bus keeps the last walk that it made, and makes another where the access or the page is
//! another one.
//!
//! Inside: the walk that was made (`walk`), the byte at an address (`byte`), a whole word stored (`store_word`) and bytes stored
//! (`store_bytes`), the bus (`bus`), and the instruction at an address (`instruction`). Where a walk is refused, `NestedBus`
//! answers. Not inside: the walk itself (`sb_nested`), and the copies (`sb_partial`).
//!
//! ```text
//! // 400FFC leads to C0FFC, and the page behind it elsewhere
//! CopyBus::new(&mut part, eptp, cr3).load(Linear(0x400FF0), 8)      // one walk, and 8 bytes of the copy of frame C0
//! CopyBus::new(&mut part, eptp, cr3).load(Linear(0x400FFC), 8)      // two walks
//! ```
#![tactic(auto)]

mod bus;
mod byte;
mod instruction;
mod store_bytes;
mod store_word;
mod walk;

pub use bus::CopyBus;
pub use instruction::fetch_next;
