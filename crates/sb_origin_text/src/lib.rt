//! Rewritten texts: which instruction of the original code each address stands for.
#![tactic(auto)]

mod laws;

pub use laws::{codes_fetched, text_is_made, texts_give_codes};
