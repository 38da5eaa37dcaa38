//! A process of the plain machine whose text was rewritten, beside the same process with its own text.
#![tactic(auto)]

mod laws;

pub use laws::{fetches_stay, process_runs, process_texts};
