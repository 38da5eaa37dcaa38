//! What stands in place of an instruction, so that the bytes of VMFUNC, `0F 01 D4`, stand nowhere in guest code.
//!
//! `form` looks at one instruction. It may keep it, give other bytes of the same length, or move it: then a jump to a slot
//! stands in its place, and the slot has instructions before it, the one that does its work with other operands,
//! instructions behind it, and a jump back. The table of forms is a definition (`specs/Table.antt`), in words of the grammar
//! of `sb_insn`, and docs/FORMS.md explains it. Not inside: what a form does when it runs, which instructions a text has,
//! where slots stand, and where jumps lead (`sb_rewrite`).
//!
//! ```text
//! form(&add_eax, 0x400000, 0x1000, false)    // 05 0F 01 D4 00, ADD EAX, 00D4010F, at 400000
//!     // Moved: pre   mov [70004000], rcx; mov rcx, 00D4000F; lea rcx, [rcx+100]
//!     //        main  add eax, ecx
//!     //        post  mov rcx, [70004000]; jmp 400005
//! ```
#![tactic(auto)]

mod answer;
mod code;
mod helper;
mod laws;
mod mains;
mod pattern;
mod pieces;
mod places;
mod slots;
mod table;

pub use answer::Form;
pub use code::Code;
pub use helper::Helper;
pub use laws::{
    across_borders, forms_small, free_helpers, held_instructions, pattern_places,
    replacements_valid, wide_immediates,
};
pub use pieces::jump_code;
pub use places::form_applies;
pub use table::form;
