//! What stands in place of an instruction.

use crate::code::Code;

/// What stands in place of an instruction.
#[derive(Debug, Drop)]
pub enum Form {
    /// The instruction itself: it does not hold the bytes of VMFUNC.
    Keep,
    /// These bytes, as many as it has.
    InPlace(Code),
    /// A jump to a slot with these bytes, one behind the other.
    Moved {
        /// What is done before.
        pre: Code,
        /// The one instruction that does the work.
        main: Code,
        /// What is done behind it; its last instruction is a jump.
        post: Code,
    },
    /// Nothing can.
    Unmovable,
}
