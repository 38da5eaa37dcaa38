//! The rewriter: a text in which the bytes of VMFUNC, `0F 01 D4`, stand nowhere, by the table of forms.
//!
//! `list` decodes a text from its first byte to its last and gives the addresses at which its instructions start.
//! `rewrite` puts what stands in place of each of them (`sb_forms`) into a new text as long as the old one
//! (`rewriting_keeps_length`), and the slots of moved ones one behind the other into a rewrite area. That the bytes of VMFUNC
//! stand nowhere in them is proved (`rewriting_leaves_none`), and they are not searched for. Both calls say where and why they
//! cannot, and have one answer for each text (`one_listing`, `one_rewriting`). `Rewritten` also says what was changed, and
//! which original instruction runs at an address. Not inside: what is an instruction (`sb_insn`), what stands in its place
//! (`sb_forms`), what that does when it runs, and whether a process may be loaded (`sb_load`).
//!
//! ```text
//! list(alloc, &[0x31, 0xC0, 0x0F, 0x05])?            // starts at 400000 and 400002
//! rewrite(alloc, &[0x6A, 0x0F, 0x01, 0xD4])?         // text 6A 0F 03 E2, no slot
//! rewrite(alloc, &[0xEB, 0x00])                      // RewriteRefusal::BadTarget { at: 0x400000 }
//! ```
#![tactic(auto)]

mod draft;
mod edit;
mod listing;
mod passes;
mod refusal;
mod rewriting;
mod rewritten;
mod target;
mod text_insn;

pub use draft::AREA_SIZE;
pub use edit::{Edit, Edits};
pub use listing::{Listing, list, one_listing};
pub use refusal::{ListRefusal, RewriteRefusal};
pub use rewriting::{
    one_rewriting, rewrite, rewriting_keeps_length, rewriting_leaves_none, starts_stand_in_text,
};
pub use rewritten::Rewritten;
pub use sb_abi::{AREA_ADDRESS, TEXT_ADDRESS};
pub use sb_slots::{Mark, Pass, Slot, Starts, TextMap};
