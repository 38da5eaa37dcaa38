//! Tests of memory that shows a plain state, by public calls.
//!
//! Inside: the pages of a small machine of two processes and two threads (`rows`), a plain state with these pages (`plain`),
//! physical memory with page tables and views that lead to them (`nested`), and tables of accesses that both are to answer alike
//! (`accesses`). Not inside: code for any other crate.
#![tactic(auto)]

#[cfg(test)]
mod accesses;
#[cfg(test)]
mod nested;
#[cfg(test)]
mod plain;
#[cfg(test)]
mod rows;
#[cfg(test)]
mod same;
