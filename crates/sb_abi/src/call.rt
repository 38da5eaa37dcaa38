//! System calls, why they are refused, and what comes of a call through the trampoline.

ghost use Rattle.std.specs.Prelude.{◌≡◌};
ghost use Rattle.sb_abi.specs.Numbers.{call_number, refusal_number, status_number};

/// A system call, with its number in RAX (docs/FORMATS.md, "System calls").
#[derive(Clone, Copy, Debug, PartialEq, Eq)]
pub enum Call {
    /// Ends the thread, or in a server's view sends it home.
    Exit = 0,
    /// Prints the word in RDI.
    Print = 1,
    /// Makes the process a server.
    Register = 2,
    /// Gives the thread a view of a server.
    Bind = 3,
    /// Makes a heap page writable or executable.
    Protect = 4,
}

impl Call {
    /// Its number.
    pub fn number(self) -> u64
        ensures { result ≡ call_number self }
    {
        self as u64
    }
}

/// Why a system call is refused, with the number that it answers in RAX (docs/FORMATS.md, "System calls").
#[derive(Clone, Copy, Debug, PartialEq, Eq)]
pub enum CallRefusal {
    /// The thread is in a server's view.
    InServer = 10,
    /// The process is a server already.
    Already = 11,
    /// No instruction of the text starts at the handler.
    BadHandler = 12,
    /// The number of stacks is not from 1 to 16.
    BadCount = 13,
    /// Too few frames are free.
    NoFrames = 14,
    /// The number names no other process that is a server.
    NoServer = 15,
    /// The thread has 16 views.
    ListFull = 16,
    /// Each key word was drawn.
    NoKeys = 17,
    /// The heap has no page of this number.
    BadPage = 18,
    /// The mode is neither 0 nor 1.
    BadMode = 19,
    /// The bytes of VMFUNC would be executable.
    Pattern = 20,
    /// No system call has this number.
    NoCall = 21,
}

impl CallRefusal {
    /// The number that it answers.
    pub fn number(self) -> u64
        ensures { result ≡ refusal_number self }
    {
        self as u64
    }
}

/// What a client finds in R9 after a call through the trampoline. A server can go home with any other number.
#[derive(Clone, Copy, Debug, PartialEq, Eq)]
pub enum CallStatus {
    /// The handler returned.
    Served = 0,
    /// The key is not the binding's.
    WrongKey = 1,
    /// No stack of the server is free.
    PoolEmpty = 2,
    /// The index is no binding of the thread.
    Unbound = 3,
    /// The thread faulted in the server's view.
    ServerFault = 4,
    /// VMFUNC's leaf is not 0.
    BadLeaf = 5,
}

impl CallStatus {
    /// The number in R9.
    pub fn number(self) -> u64
        ensures { result ≡ status_number self }
    {
        self as u64
    }
}
