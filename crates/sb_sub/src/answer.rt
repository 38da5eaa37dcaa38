//! What a system call answers to the machine.

/// What the machine does after a system call.
#[derive(Clone, Copy, Debug, PartialEq, Eq)]
pub enum Answer {
    /// The thread goes on, with an answer to the call of this number.
    Back { number: u64, answer: u64 },
    /// The thread goes on, and this value is printed.
    Printed(u64),
    /// The thread has ended with this status.
    Ended(u64),
    /// The thread is sent home from a server's view, by an exit with this status.
    GoHome(u64),
}
