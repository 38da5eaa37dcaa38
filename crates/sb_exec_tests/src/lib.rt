//! Tests of what `sb_exec` offers to others: instructions fetched from a few bytes and executed over a few more.
//!
//! Inside: a memory of text and eight bytes of data (`board`); a row for each instruction that is tried, with the registers
//! and flags before and after it and what it stores (`row`); and what stops a fetch or an access.
#![tactic(auto)]

#[cfg(test)]
mod board;
#[cfg(test)]
mod branches;
#[cfg(test)]
mod laws;
#[cfg(test)]
mod operands;
#[cfg(test)]
mod operations;
#[cfg(test)]
mod row;
#[cfg(test)]
mod same;
#[cfg(test)]
mod stops;
