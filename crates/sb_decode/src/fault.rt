//! Why bytes begin with no instruction.

use thiserror::Error;

/// Why bytes begin with no instruction of the subset.
#[derive(Clone, Copy, Debug, PartialEq, Eq, Error)]
pub enum DecodeFault {
    /// No instruction begins the bytes, and one begins some longer input that begins with all of them.
    #[error("the bytes end inside an instruction")]
    Short,
    /// No instruction begins the bytes, however they go on.
    #[error("no instruction of the subset begins with these bytes")]
    Undecoded,
}
