//! The walk through the guest's page tables (SDM volume 3, section 4.5), and a set of tables to walk through.
//!
//! Inside: `Tables`, from which a walk reads entries; `walk`, which is exactly the walk of the definitions in `sb_walks`, for
//! user-mode accesses over four levels; `Direct`, tables read straight from memory; and `TableSet`, the page tables of one
//! process. Not inside: the EPT, large pages, accessed and dirty flags, and caches of translations.
//!
//! ```text
//! let set = TableSet::build(&mut memory, root, tables);          // no address is translated
//! set.set_page(&mut memory, Linear(0x400000), 0x258005);         // its page is frame 258: present, user, not writable
//! walk(&mut Direct::new(&mut memory), cr3, Linear(0x400123), Access::Fetch)   // is Ok(GuestPhys(0x258123))
//! ```
#![tactic(auto)]

mod direct;
mod entry;
mod laws;
mod step;
mod table_set;
mod tables;
mod windows;

pub use direct::Direct;
pub use laws::{sets_keep_apart, walks_go_through_sets};
pub use sb_walks::{TableStop, WalkStop};
pub use step::walk;
pub use table_set::TableSet;
pub use tables::Tables;
