//! Tests of the instructions: of the grammar and its maps (`sb_insn`), of the decoder (`sb_decode`) and of the encoder
//! (`sb_encode`).
//!
//! Nothing else is inside. Each table has one case a row, and the expected values come from the SDM and objdump.
#![tactic(auto)]

#[cfg(test)]
mod decoding;
#[cfg(test)]
mod encoding;
#[cfg(test)]
mod grammar;
#[cfg(test)]
mod same;
