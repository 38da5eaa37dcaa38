//! The tables and pages of a start in physical memory, and pages that are added to tables later.
//!
//! A page is added in four steps: a frame is taken from the frame book, filled, mapped in the tables of a process, and exposed in
//! the base EPT. `specs/Taking` says what that asks and leaves; `specs/Carries` says when bytes, root kernel and frame book carry
//! a state of plain memory, and the law `pages_are_carried` that they carry the state with the page afterwards.
//!
//! Inside: what tables and book say of a page by its mode (`entry`); a page and the pages of server stacks (`taking`); of a
//! start the trampoline's pages (`trampolines`), the tables of a process (`tables`), its text, rewrite area, data, heap and pool
//! page (`pages`), both together (`processes`), and the list, home view, save page and stack of a thread (`threads`). Not inside:
//! which processes and threads there are (`sb_sub`), what the root kernel keeps (`sb_root`), the walks, and what memory shows
//! (`sb_shows`).
//!
//! ```text
//! put_trampolines(&mut memory);                                                     // frames 1 and 4
//! let set = add_process(&mut memory, &mut book, &mut root, 0, image, made);         // its root is frame 16
//! add_thread(&set, &mut memory, &mut book, &mut root, 0, 0);                        // thread 0, at home in process 0
//! add_stacks(&set, &mut memory, &mut book, &mut root, 0, 4);                        // four pages more: it becomes a server
//! ```
#![tactic(auto)]

mod entry;
mod laws;
mod pages;
mod processes;
mod tables;
mod taking;
mod threads;
mod trampolines;

pub use entry::{page_entry, page_rights};
pub use laws::pages_are_carried;
pub use pages::heap_address;
pub use processes::add_process;
pub use taking::{add_stacks, fill};
pub use threads::add_thread;
pub use trampolines::put_trampolines;
