//! Two physical memories that hold the same words give the same instruction.
//!
//! A memory of copies, in which frames may be missing, notes which words are read before they are written and which are
//! written, each once (`specs/Noted`). Another memory agrees with it at some words where it has the same bytes in them
//! (`specs/Held`). Then what is fetched, executed or read over the copies, with no missing frame, comes over the other memory
//! too, whatever else stands there: the same instruction, the same answer, the same registers and the same words noted, and
//! what is written keeps them in agreement. No case is made on an instruction, and nothing here speaks of a machine.
//!
//! Inside: what is noted, when memories agree, and the laws. Not inside: a memory that notes, and steps of a core.
//!
//! ```text
//! // MOV [RBX], EAX, which leads to C0124: the words of the tables, of the code, and word 18024 are read, and 18024 is written
//! // over another memory with the same values in these words it is the same store, and word 18024 is the same after it
//! ```
#![tactic(auto)]

mod laws;

pub use laws::{
    accounts_do_not_matter, accounts_grow, executions_agree, fetches_agree, holding_memories_agree,
    words_agree, written_words_are_held,
};
