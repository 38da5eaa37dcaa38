//! The walk through the extended page tables (SDM volume 3, section 28.3).
//!
//! Inside: `is_eptp`, the test of an EPT pointer, which is that of `sb_walks`; and `ept_walk`, which is exactly the walk of the
//! definitions in `sb_walks` over any physical memory: four levels, the rights judged at each of them. Its contract says which
//! words it reads, in which order, by the memory's account. Not inside: how an EPT is built, large pages, five levels, accessed
//! and dirty flags, and caches of translations.
//!
//! ```text
//! is_eptp(0x501E)                                                // the table in frame 5, memory type 6, four levels
//! ept_walk(&mut memory, 0x501E, GuestPhys(0x400123), Access::Read)   // is Ok(PhysAddr(0x258123)), where that page is frame 258
//! ```
#![tactic(auto)]

mod entry;
mod step;

pub use sb_memory::EptStop;
pub use sb_walks::is_eptp;
pub use step::ept_walk;
