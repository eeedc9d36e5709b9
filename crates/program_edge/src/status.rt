ghost use Rattle.std.specs.Prelude.{◌≡◌};
ghost use Rattle.program_edge.specs.Statuses.{code_of};

/// How a run of a program ended. The codes are 0 to 7 in this order.
#[derive(Clone, Copy, Debug, PartialEq, Eq)]
pub enum Status {
    /// The defined answer was written.
    Answered,
    /// The certificate was rejected, or weighs too much in version 2.
    Rejected,
    /// The words ask for nothing.
    Usage,
    /// The problem text has no system.
    Refused,
    /// A text could not be fetched.
    ReadFault,
    /// A text could not be written whole.
    WriteFault,
    OutOfMemory,
    /// A text has more bytes than its limit.
    TooLong,
}

impl Status {
    /// The exit code.
    pub fn code(self) -> u8
        ensures { result ≡ code_of self }
    {
        match self {
            Status::Answered => 0,
            Status::Rejected => 1,
            Status::Usage => 2,
            Status::Refused => 3,
            Status::ReadFault => 4,
            Status::WriteFault => 5,
            Status::OutOfMemory => 6,
            Status::TooLong => 7,
        }
    }
}
