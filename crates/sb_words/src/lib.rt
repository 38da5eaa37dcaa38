//! The words of a command line, and the numbers in them.
//!
//! `command_words` gives the words that a program was started with; words that are not UTF-8 are none. `is_text` and `number_of` read
//! one: a number is decimal digits without sign or leading zero. Not inside: what the commands of a program are.
//!
//! ```text
//! number_of("42")                                    // Some(42)
//! number_of("042")                                   // None, as for "+42", "x" and 2^64
//! ```
#![tactic(auto)]

mod command_line;
mod words;

pub use command_line::command_words;
pub use words::{is_text, number_of};
