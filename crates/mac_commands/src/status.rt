//! How a run of the program ends.
ghost use Rattle.std.specs.Prelude.{◌≡◌};
ghost use Rattle.mac_commands.specs.Status.{status_code};

/// How a run of the program ends.
#[derive(Clone, Copy, Debug, PartialEq, Eq)]
pub enum Status {
    /// What was asked for was done: of the requests of programs, each was answered.
    Done,
    /// What a person asked for is refused.
    Refused,
    /// A line of a program's key file has a fault.
    BadKeys,
    /// The command line has a fault, or what a word of it names.
    BadLine,
    /// A device failed, or gave more than it may.
    DeviceFault,
    /// Memory ran out.
    NoMemory,
}

impl Status {
    /// The number that the system is told.
    pub fn code(self) -> u8
        ensures { result ≡ status_code self }
    {
        match self {
            Status::Done => 0,
            Status::Refused | Status::BadKeys => 1,
            Status::BadLine => 2,
            Status::DeviceFault => 3,
            Status::NoMemory => 4,
        }
    }
}
