ghost use Rattle.std.specs.Prelude.{◌≡◌};
ghost use Rattle.ap_command.specs.Statuses.{status_number};

/// How a command ended. `file` is the place of a file's name among the words, counted from 0;
/// `line` counts lines from 1; `stage` counts the stages of a row from 1, and 0 is none of them;
/// `place` counts bytes of that stage's input from 0, and for a file that is too long it is the
/// place of its name among the words. Faults and kinds go by their numbers.
#[derive(Clone, Copy, Debug, PartialEq, Eq)]
pub enum Status {
    /// Everything was read and written.
    Done,
    /// The words are no command.
    Usage,
    /// The file could not be loaded or stored.
    FileFault { file: usize },
    /// The source failed.
    ReadFault,
    /// The sink failed.
    WriteFault,
    /// The dictionary has this first fault.
    BadDictionary { file: usize, fault: u8, line: u64 },
    /// The rule file has this first fault.
    BadRules { file: usize, fault: u8, line: u64 },
    /// The compiled file has this first fault.
    BadCompiled { file: usize, fault: u8, line: u64 },
    /// The stream is malformed at this place.
    Malformed { stage: u8, kind: u8, place: u64 },
    /// A limit is passed at this place.
    Limit { stage: u8, kind: u8, place: u64 },
    /// Memory ran out.
    Memory,
}

impl Status {
    /// The number with which the program ends: 0 to 10, in the order of the list.
    pub fn number(&self) -> u8
        ensures { result ≡ status_number self.now }
    {
        match *self {
            Status::Done => 0,
            Status::Usage => 1,
            Status::FileFault { .. } => 2,
            Status::ReadFault => 3,
            Status::WriteFault => 4,
            Status::BadDictionary { .. } => 5,
            Status::BadRules { .. } => 6,
            Status::BadCompiled { .. } => 7,
            Status::Malformed { .. } => 8,
            Status::Limit { .. } => 9,
            Status::Memory => 10,
        }
    }
}
