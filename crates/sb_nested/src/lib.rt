//! The nested walk: the guest's page tables behind the extended page tables (SDM volume 3, sections 4.5 and 28.3).
//!
//! A guest's CR3 and the entries of its page tables hold guest-physical addresses. So each of these addresses first goes
//! through the EPT, and so does the address to which the guest's walk leads.
//!
//! Inside: `translate`, which is exactly the nested walk of the definitions in `sb_walks` over any physical memory, and says by
//! the memory's account which words it reads, in which order, at most 24; and `NestedBus`, through which instructions fetch,
//! load and store by that walk, with the account of each call. Not inside: large pages, accessed and dirty flags, and caches
//! of translations.
//!
//! ```text
//! // CR3 is 10000, which the EPT puts at frame 8, and both walks permit the access
//! translate(&mut memory, 0x101E, 0x10000, Linear(0x400123), Access::Fetch)   // is Ok(PhysAddr(0xC123)), say
//! ```
#![tactic(auto)]

mod bus;
mod laws;
mod nested;
mod read;
mod store_bytes;
mod store_word;
mod tables;
mod walk;

pub use bus::NestedBus;
pub use laws::{at_most_24_words, stores_change_what_they_reach, whole_memories_miss_nothing};
pub use nested::translate;
pub use sb_walks::NestedStop;
