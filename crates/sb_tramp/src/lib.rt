//! The trampoline: the two pages of code by which a thread enters a server and comes back.
//!
//! A view of a thread shows one of the pages at `70000000`: the home view the home page, each other view the server page.
//! Both have VMFUNC at offset 40, so a thread that switches its view there goes on in the other page. `put_home` and
//! `put_server` write the pages byte for byte: each row of a table (`specs/`) is an instruction of the grammar of
//! `sb_insn` at an offset, and all other bytes are CC. By the law `rows_stand` the page's bytes from a row's offset on begin
//! with the row's instruction, so that decoding there gives it, and the bytes of VMFUNC stand at offset 40 alone.
//! `landing_row` says where the instruction of each phase of a landing stands, `RecordWords` what the trampoline's code reads,
//! and `KeyWords` is the list that calling keys are drawn from. Not inside: who maps the pages, and what the instructions do
//! (`sb_exec`).
//!
//! ```text
//! put_server(&mut page);    // page[0x40..0x43] is 0F 01 D4
//! landing_row(24)           // Some(LandingRow { offset: 0x40, length: 3 })
//! ```
#![tactic(auto)]

mod keys;
mod landing;
mod pages;
mod record_words;

pub use keys::KeyWords;
pub use landing::{LandingRow, landing_row};
pub use pages::{put_home, put_server, rows_stand};
pub use record_words::RecordWords;
