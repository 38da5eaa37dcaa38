//! The memory of the plain machine as one that holds the words of slots, beside the memory of the original code.
#![tactic(auto)]

mod laws;

pub use laws::{
    plain_beside, plain_bytes, plain_runs, plain_threads, plain_threads_run, plain_words,
    scratch_differs, sound_holds, sound_related, sound_threads_related,
};
