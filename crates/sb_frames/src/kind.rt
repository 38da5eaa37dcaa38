//! What frames are taken for.

/// What a frame holds.
#[derive(Clone, Copy, Debug, PartialEq, Eq)]
pub enum Kind {
    /// A page table of a guest.
    GuestTable,
    /// A page that is only executed.
    Code,
    /// A page that is read and written.
    Writable,
    /// A table of the EPT.
    EptTable,
    /// The list of the EPT pointers of a thread.
    EptpList,
    /// The record page of a view.
    RecordPage,
    /// The scratch page of a view.
    ScratchPage,
}
