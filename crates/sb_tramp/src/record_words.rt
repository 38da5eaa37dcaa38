//! The words of a record page.

ghost use Rattle.std.specs.Prelude.{◌≡◌};
ghost use Rattle.sb_tramp.specs.Record.{words_of};

/// What the record page of a view says: the trampoline's code reads it at fixed addresses.
#[derive(Clone, Copy, Debug, PartialEq, Eq)]
pub struct RecordWords {
    /// The calling key of the binding; 0 in a home view.
    pub key: u64,
    /// Where the server stacks begin, as RSP of the first one; 0 in a home view.
    pub base: u64,
    /// The address of the server's handler; 0 in a home view.
    pub handler: u64,
    /// The thread's number.
    pub thread: u64,
    /// The address of the thread's save page; 0 in a server's view.
    pub save: u64,
    /// The thread's home process.
    pub home: u64,
}

impl RecordWords {
    /// The words in the order of the page, from its first byte on, 8 bytes each.
    pub fn in_order(&self) -> [u64; 6]
        ensures { result ≡ words_of self.now }
    {
        [
            self.key,
            self.base,
            self.handler,
            self.thread,
            self.save,
            self.home,
        ]
    }
}
