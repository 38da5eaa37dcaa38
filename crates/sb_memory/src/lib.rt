//! The kinds of address, and physical memory.
//!
//! Inside: a newtype for each address space, so that no call takes one kind of address for another; the three kinds of
//! access; the refusals that walks through memory share; `Phys`, what every physical memory is; and `Memory`, which has all
//! its frames. Not inside: paging.
//!
//! Code for any memory is generic over `Phys`. Its contract says which calls it makes, in their order, by the memory's account:
//! what a memory notes of its calls, by a rule of its own. `Memory` notes nothing; a memory of copied frames notes the words
//! that were read, so that they can be compared later.
//!
//! A linear address is what an instruction uses. Guest page tables lead from it to a guest-physical address, and the EPT
//! leads from there to a physical one (SDM volume 3, chapters 4 and 28). A word is 8 bytes, the lowest first:
//!
//! ```text
//! let mut memory = Memory::new(alloc, 2)?;                       // 8,192 zeros
//! memory.write_word(PhysAddr(0x1000), 0x258005)?;                // puts 05 80 25 00 00 00 00 00 at 1000
//! memory.read_byte(PhysAddr(0x1001))                             // is Ok(0x80)
//! ```
#![tactic(auto)]

mod address;
mod bytes;
mod laws;
mod memory;
mod page;
mod phys;

pub use address::{Access, EptStop, Frame, GuestPhys, Linear, Missing, PhysAddr};
pub use bytes::{put_bytes, put_word, put_zeros, word};
pub use laws::{
    changes_are_made_in_frames, changes_leave_other_frames, frames_hold_bytes, words_keep_apart,
};
pub use memory::Memory;
pub use page::{PAGE_SIZE, page_count};
pub use phys::Phys;
