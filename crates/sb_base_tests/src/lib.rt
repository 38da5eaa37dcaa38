//! Tests of the crates that all others stand on: lists (`sb_list`), sources and sinks (`sb_port`), the search for the
//! bytes of VMFUNC (`sb_scan`), and of marks (`sb_slots`).
//!
//! Nothing else is inside. Each table has one case a row.
#![tactic(auto)]

#[cfg(test)]
mod adapters;
#[cfg(test)]
mod lists;
#[cfg(test)]
mod marks;
#[cfg(test)]
mod same;
#[cfg(test)]
mod scanning;
#[cfg(test)]
mod transfers;
