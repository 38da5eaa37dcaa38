//! Rewritten code beside the original: what each piece of a slot does, and what a whole slot does.
#![tactic(auto)]

mod laws;

pub use laws::{
    Rewritten, adding, addressed, displaced, exchanged, jumping, main_steps, passing, pieces_do,
    pushing, replacements_go, rest_gives, through_exchanged, wide_moving, with_both, with_constant,
};
