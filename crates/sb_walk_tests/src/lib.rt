//! Tests of public calls of memory, walks, views and the trampoline.
//!
//! Inside: tables of rows with values from outside, for `sb_memory`, `sb_eptwalk`, `sb_pagewalk`, `sb_nested`, `sb_frames`,
//! `sb_root` and `sb_tramp`, and the memory that they share, which misses a frame and notes its calls. Not inside: code for
//! any other crate.
#![tactic(auto)]

#[cfg(test)]
mod ept;
#[cfg(test)]
mod error_texts;
#[cfg(test)]
mod frames;
#[cfg(test)]
mod memory;
#[cfg(test)]
mod nested;
#[cfg(test)]
mod paging;
#[cfg(test)]
mod root;
#[cfg(test)]
mod same;
#[cfg(test)]
mod sparse;
#[cfg(test)]
mod trampoline;
