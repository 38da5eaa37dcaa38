//! Physical memory of which some frames are there, as copies. It notes which words are read and holds back what is written.
//!
//! Inside, from the lowest: the copy of one frame (`frame`), the copies of all (`frames`), what is noted of their words (`note`),
//! both together (`held`), and the memory that holds them once there are any (`partial`). Not inside: what is done with them
//! (`sb_block`).
//!
//! ```text
//! let mut part = Partial::new(640);                     // no frame is there: each access is Missing
//! part.give(alloc, Frame(5), machine.frame_bytes(Frame(5)))?;
//! part.read_word(PhysAddr(0x5008))                      // is Ok, and word A01 is noted as read
//! part.restore();                                       // the copy is as it was given, and nothing is noted
//! ```
#![tactic(auto)]

mod frame;
mod frames;
mod held;
mod note;
mod partial;

pub use partial::Partial;
