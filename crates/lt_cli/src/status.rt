//! How a call of the program ends.

ghost use Rattle.std.specs.Prelude.{◌≡◌};

/// How the top call ended. Its number is the exit status of the program.
#[derive(Clone, Copy, Debug, PartialEq, Eq)]
pub enum Status {
    /// The work is done; where the source is read, it was read to its end.
    Done,
    /// The words are no list of words that there is.
    Words,
    SourceFault,
    SinkFault,
    DeviceFault,
    /// A block of the device does not stand.
    Damaged,
    /// The device cannot be made a store.
    Refused,
    NoMemory,
    /// The number of pieces that one run may take was reached.
    Turns,
}

impl Status {
    ghost use Rattle.lt_cli.specs.Promise.{code_of};

    /// The exit status of the program.
    pub fn code(&self) -> u8
        ensures { result ≡ code_of self.now }
    {
        match self {
            Status::Done => 0,
            Status::Words => 1,
            Status::SourceFault => 2,
            Status::SinkFault => 3,
            Status::DeviceFault => 4,
            Status::Damaged => 5,
            Status::Refused => 6,
            Status::NoMemory => 7,
            Status::Turns => 8,
        }
    }
}
