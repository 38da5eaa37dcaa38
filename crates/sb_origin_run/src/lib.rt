//! Runs of rewritten code beside runs of the original code.
#![tactic(auto)]

mod laws;

pub use laws::{
    Codes, Systems, ThreadCodes, original_state, registers_of_threads_stay, registers_stay,
    rewritten_runs, rewritten_system_runs, rewritten_threads_run, runs_alike, slot_accesses,
    steps_alike, text_stands, threads_run_alike,
};
