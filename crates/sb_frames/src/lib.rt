//! The frames of physical memory that can be taken.
//!
//! A frame book says of each frame from 512 on whether it is free, or what it was taken for and by whom. It gives the lowest
//! free frame first. Frames below 512 have fixed uses and are not in it. The book neither reads nor writes memory.
//!
//! ```text
//! let mut book = FrameBook::new(alloc, 514)?;                    // frames 512 and 513
//! book.take(Kind::Code, 0)                                       // is Some(Frame(512))
//! book.kind_of(Frame(512))                                       // is Some((Kind::Code, 0))
//! ```
#![tactic(auto)]

mod book;
mod kind;

pub use book::FrameBook;
pub use kind::Kind;
