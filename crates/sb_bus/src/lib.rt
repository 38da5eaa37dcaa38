//! Memory as an instruction sees it, over any memory.
//!
//! Promised: the trait `Bus` says what its four calls answer and leave, each by one byte after another: a load is the
//! number of the bytes from its address upwards, or what the first that fails gives, and a store is done where each of
//! its bytes can be written. What a byte gives, what a store leaves and what a bus notes of its calls is for each bus to
//! say (`specs/Interface.antt`).
//!
//! Inside: the trait; `load_bytes`, by which a bus that can give a byte loads a number; what stops an access, as `BusStop`
//! and the kinds of fault; and the lemmas by which a bus is proved byte by byte (`proofs/Loads.antt`).
//! Not inside: a memory, and what an instruction does.
//!
//! So a load of 4 bytes at FFFFFFFF_FFFFFFFE reads the bytes at FFFFFFFF_FFFFFFFE, FFFFFFFF_FFFFFFFF, 0 and 1.
#![tactic(auto)]

mod bus;
mod byte_source;
mod stop;

pub use bus::Bus;
pub use byte_source::{ByteSource, load_bytes};
pub use stop::{BusStop, FaultKind};
