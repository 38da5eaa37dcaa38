//! Tests of how a bundle becomes what a machine is started from, over the public calls of `sb_bundle`, `sb_forms`,
//! `sb_rewrite` and `sb_load`: worked cases, which no clause says.
//!
//! Inside: one builder of bundles (`bundles`), and a module of tests for each of the four libraries, and one for the texts of
//! their errors. Not inside: what a library keeps to itself, which it tests itself, and the runs of a machine.
//!
//! ```text
//! bundle_of(alloc, 576, &[PRINTS], &[core(0, 0x40_0000)])?         // 576 frames, one process and one core
//! ```
#![tactic(auto)]

#[cfg(test)]
mod bundles;
#[cfg(test)]
mod error_texts;
#[cfg(test)]
mod forms;
#[cfg(test)]
mod loading;
#[cfg(test)]
mod reading;
#[cfg(test)]
mod rewriting;
#[cfg(test)]
mod same;
