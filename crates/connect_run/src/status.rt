ghost use Rattle.std.specs.Prelude.{◌≡◌};

/// How a run ended.
#[derive(Clone, Copy, Debug, PartialEq, Eq)]
pub enum Status {
    /// The answer was written.
    Done,
    /// Nothing that was asked for exists, and a side that forbids it was written.
    Impossible,
    /// The certificate that was to be checked is wrong.
    Rejected,
    /// The words are no command.
    BadWords,
    /// The input is no graph text.
    BadGraph,
    /// The input has too many bytes, or its graph more than a text may have.
    TooLarge,
    /// What was asked doesn't suit the graph.
    Unsuited,
    /// The input could not be read. Nothing was written.
    ReadFault,
    /// The answer could not be written whole.
    WriteFault,
    /// Memory ran out. Nothing was written.
    NoMemory,
}

impl Status {
    ghost use Rattle.connect_run.specs.Status.{exit_number};

    /// The number with which a program ends.
    pub fn exit_number(&self) -> u8
        ensures { result ≡ exit_number self.now }
    {
        match self {
            Status::Done => 0,
            Status::Impossible => 1,
            Status::Rejected => 2,
            Status::BadWords => 3,
            Status::BadGraph => 4,
            Status::TooLarge => 5,
            Status::Unsuited => 6,
            Status::ReadFault => 7,
            Status::WriteFault => 8,
            Status::NoMemory => 9,
        }
    }
}
