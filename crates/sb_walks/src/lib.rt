//! What stops a walk through page tables, and the definitions of the walks.
//!
//! Inside: the refusals of walks; what both kinds of table share, as the bits of an entry and the place of the entry for an
//! address; and in `specs/` what an entry says and where it stands, and what each of three walks over
//! four levels answers and reads: through the guest's page tables (SDM volume 3, section 4.5), through the EPT (section 28.3),
//! and through the guest's tables with each address first through the EPT. `proofs/` has what holds of them: where a write
//! leads a read leads too, one page has one translation, and a walk depends on the words that it reads alone. Not inside: the
//! walks themselves, which `sb_pagewalk` and the crates above it have.
//!
//! Levels are numbered as the refusals name them: 4 is the PML4 table, 3 a page-directory-pointer table, 2 a page directory,
//! 1 a page table.
#![tactic(auto)]

mod entry;
mod stop;

pub use entry::{
    EPTP_FLAGS, LEAF_WRITE_BACK, PS, WRITE_BACK, entry_place, frame_number, has_bit, index, is_eptp,
};
pub use stop::{NestedStop, TableStop, WalkStop};
