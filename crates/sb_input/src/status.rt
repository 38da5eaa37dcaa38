//! How a command ends.

ghost use Rattle.std.specs.Prelude.{◌≡◌};
ghost use Rattle.sb_input.specs.Status.{exit_status};

/// How a command ended. The number is the program's exit status.
#[derive(Clone, Copy, Debug, PartialEq, Eq)]
pub enum Status {
    /// The whole output was written.
    Done = 0,
    /// The words are no command.
    BadWords = 2,
    /// The source failed.
    ReadFault = 3,
    /// The sink failed while the output was written.
    WriteFault = 4,
    /// The input is no bundle.
    BundleRefused = 5,
    /// The bundle cannot be loaded.
    LoadRefused = 6,
    /// Memory did not suffice. Nothing was written.
    NoMemory = 7,
    /// The input is longer than 64 MiB.
    TooLong = 8,
}

impl Status {
    /// The program's exit status.
    pub fn number(self) -> u8
        ensures { result ≡ exit_status self }
    {
        self as u8
    }
}
