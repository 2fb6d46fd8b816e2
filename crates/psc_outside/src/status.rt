//! The statuses that a run may end with.

ghost use Rattle.std.specs.Prelude.{◌≡◌, ◌≤◌};
ghost use Rattle.psc_outside.specs.Status.{number_of};

/// What a run of the program came to.
#[derive(Clone, Copy, Debug, PartialEq, Eq)]
pub enum Status {
    /// All was done.
    Accepted,
    /// A source has errors, which were printed.
    Errors,
    /// The words are no command.
    BadWords,
    /// A file is absent, or its reading failed.
    Unreadable,
    /// A result could not be stored or printed.
    NotStored,
    /// A connection could not be served.
    NotServed,
    /// Memory ran out.
    NoMemory,
    /// A limit on files or sizes was passed.
    Limit,
    /// The name that is to be evaluated is that of no value.
    UnknownValue,
    /// An evaluation stopped before it had a value.
    Stopped,
}

impl Status {
    /// The number with which the process ends.
    pub fn number(self) -> u8
        ensures by_case { result ≡ number_of self }
        ensures small { result ≤ 9 }
    {
        match self {
            Status::Accepted => 0,
            Status::Errors => 1,
            Status::BadWords => 2,
            Status::Unreadable => 3,
            Status::NotStored => 4,
            Status::NotServed => 5,
            Status::NoMemory => 6,
            Status::Limit => 7,
            Status::UnknownValue => 8,
            Status::Stopped => 9,
        }
    }
}
