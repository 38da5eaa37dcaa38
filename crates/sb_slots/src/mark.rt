//! What a step is to the original text.

/// What a step is to the original text.
#[derive(Clone, Copy, Debug, PartialEq, Eq)]
pub enum Mark {
    /// It is a step of the original text.
    Step,
    /// It belongs to what stands in place of an instruction, and the original text has no step for it.
    Extra,
    /// It leaves what the rewriting keeps: from it on nothing is said of the original text.
    Stray,
}
