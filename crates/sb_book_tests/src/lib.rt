//! Tests of commits on a book: blocks of one core beside what the other one stores.
//!
//! Inside: the bundle (`bundle`), and rows of a block, the stores beside it, and what its commit answers (`rows`). Not inside: code
//! for any other crate.
//!
//! ```text
//! rows()      // the block of core 0 is made; core 1 stores so often; then the block is committed
//! ```
#![tactic(auto)]

#[cfg(test)]
mod bundle;
#[cfg(test)]
mod rows;
