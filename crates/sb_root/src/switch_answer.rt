//! What EPTP switching answers.

/// What VMFUNC does.
#[derive(Clone, Copy, Debug, PartialEq, Eq)]
pub enum Switch {
    /// The processor goes on with this EPT pointer.
    To { eptp: u64 },
    /// VM exit: the list has no such index, or its entry there is no EPT pointer.
    Unbound,
    /// VM exit: EAX names another leaf than 0.
    BadLeaf,
}
