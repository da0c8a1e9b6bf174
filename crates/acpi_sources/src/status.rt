// How a command ends.

ghost use Rattle.std.specs.Prelude.{◌≡◌};
ghost use Rattle.acpi_sources.specs.Status.{status_code};

/// How a command ends, and with it the program.
#[derive(Clone, Copy, Debug, PartialEq, Eq)]
pub enum Status {
    /// What was asked for is done.
    Done,
    /// A fault ended it, whose line is the last; or not all was written.
    Fault,
    /// The words are no command line.
    NoCommand,
    /// A method is refused or cannot be read, or its evaluation ended with an AML error or out of
    /// steps.
    Refused,
}

impl Status {
    /// The number that the program hands to who started it: 0 to 3, in the order above.
    pub fn code(self) -> u8
        ensures { result ≡ status_code self }
    {
        match self {
            Status::Done => 0,
            Status::Fault => 1,
            Status::NoCommand => 2,
            Status::Refused => 3,
        }
    }
}
