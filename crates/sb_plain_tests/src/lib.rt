//! Tests of the public calls of `sb_state`, `sb_trace` and `sb_plain`: pages, the memory of threads, the text of the report,
//! the start of a small machine and its steps.
#![tactic(auto)]

#[cfg(test)]
mod machine;
#[cfg(test)]
mod memory;
#[cfg(test)]
mod pages;
#[cfg(test)]
mod report;
#[cfg(test)]
mod same;
