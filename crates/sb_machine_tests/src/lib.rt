//! Tests of the machine with page tables beside the plain machine: the same steps on both, by public calls.
//!
//! Inside: bundles of servers and clients (`bundles`), both machines side by side (`pair`), and rows of turns with the line that
//! each is for, by docs/CALLS.md (`turns`), and rows of texts with the mark of each
//! line, by docs/MARKS.md (`marks`). Not inside: code for any other crate.
//!
//! ```text
//! ("a wrong key", &[&ADDS, &GUESSES], &[(0, 7), (1, 28)], Event::WrongKey { index: 1 })     // 7 steps of core 0, and 28 of core 1
//! ```
#![tactic(auto)]

#[cfg(test)]
mod bundles;
#[cfg(test)]
mod marks;
#[cfg(test)]
mod pair;
#[cfg(test)]
mod same;
#[cfg(test)]
mod turns;
