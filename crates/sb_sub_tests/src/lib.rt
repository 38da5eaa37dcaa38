//! Tests of the Subkernel beside the plain machine: the same calls on both, by public calls.
//!
//! Inside: bundles whose threads make calls in a row (`programs`), a Subkernel over memory (`nested`), both machines side by side
//! (`pair`), the comparison of all that their threads reach (`sight`), and rows of calls with what they leave by docs/FORMATS.md
//! (`calls`, `views`). Not inside: code for any other crate.
//!
//! ```text
//! ("a handler inside an instruction", 0, 0, Call([2, 0x40_0001, 1], [12, 0]))     // thread 0 in process 0: register is refused
//! ```
#![tactic(auto)]

#[cfg(test)]
mod calls;
#[cfg(test)]
mod nested;
#[cfg(test)]
mod pair;
#[cfg(test)]
mod programs;
#[cfg(test)]
mod same;
#[cfg(test)]
mod sight;
#[cfg(test)]
mod views;
