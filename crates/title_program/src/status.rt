//! How the program ends.

ghost use Rattle.std.specs.Prelude.{◌≡◌};
ghost use Rattle.title_program.specs.Statuses.{status_code};

use std::process::ExitCode;

/// How the program ends.
#[derive(Clone, Copy, Debug, PartialEq, Eq)]
pub enum Status {
    /// The command was carried out, or help was shown.
    Success,
    /// There is a fault, or the output can't be written.
    Failure,
    /// The command line isn't understood.
    Misunderstood,
}

impl Status {
    /// The number that the process ends with.
    pub fn code(self) -> u8
        ensures code { result ≡ status_code self }
    {
        match self {
            Status::Success => 0,
            Status::Failure => 1,
            Status::Misunderstood => 2,
        }
    }
}

impl From<Status> for ExitCode {
    fn from(status: Status) -> ExitCode {
        ExitCode::from(status.code())
    }
}
