// How a run ends.

ghost use Rattle.std.specs.Prelude.{◌≡◌};
ghost use Rattle.script.specs.Texts.{exit_status};

/// How a run ended.
#[derive(Clone, Copy, Debug, PartialEq, Eq)]
pub enum Status {
    Good,
    /// The words are none of the program's commands.
    Usage,
    /// This line is the first that is not in the grammar, and this the least rule that it breaks.
    ScriptFault { line: u64, rule: u32 },
    /// The script has more bytes than a script may have.
    ScriptTooLong,
    OpenFault,
    SourceFault,
    SinkFault,
    /// The image breaks a rule, which this sector shows.
    Damaged { rule: u32, sector: u64 },
    ReadFault,
    WriteFault,
    FlushFault,
    /// The positions of the log are used up.
    PositionEnd,
    NoMemory,
    /// The log is down since a fault, after which the device had counted so many.
    Down { fault: u64 },
}

impl Status {
    /// The program's exit status.
    pub fn exit_code(self) -> u8
        ensures { result ≡ exit_status self }
    {
        match self {
            Status::Good => 0,
            Status::Usage => 2,
            Status::ScriptFault { .. } => 3,
            Status::ScriptTooLong => 4,
            Status::OpenFault => 5,
            Status::SourceFault => 6,
            Status::SinkFault => 7,
            Status::Damaged { .. } => 8,
            Status::ReadFault => 9,
            Status::WriteFault => 10,
            Status::FlushFault => 11,
            Status::PositionEnd => 12,
            Status::NoMemory => 13,
            Status::Down { .. } => 14,
        }
    }
}
