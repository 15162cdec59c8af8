ghost use Rattle.std.specs.Prelude.{◌≡◌};
ghost use Rattle.ap_binary.specs.Refusals.{kind_number, kind_name};

use ap_symbol::Memory;
use thiserror::Error;

/// Why no piece of a line was read.
#[derive(Debug, Drop)]
pub(crate) enum CutError {
    /// No piece of that form stands at the front.
    Bad,
    Memory,
}

impl From<Memory> for CutError {
    ghost use Rattle.std.specs.Prelude.{◌≡◌};
    ghost use Rattle.ap_binary.specs.declared.refusal.CutError.TheVariants.{Memory as no_memory};

    ghost from_gives = { λ _ e. e ≡ no_memory };

    fn from(_e: Memory) -> CutError {
        CutError::Memory
    }
}

/// What is wrong in a compiled file.
#[derive(Clone, Copy, Debug, PartialEq, Eq)]
pub enum BinaryKind {
    BadHeader,
    BadLine,
    OutOfRange,
    EmptyCycle,
    EmptySide,
    /// The file tells another direction than its place needs. `read_compiled` never answers it.
    WrongWay,
}

impl BinaryKind {
    /// The number of the kind, from 1 to 6.
    pub fn number(self) -> u8
        ensures { result ≡ kind_number self }
    {
        match self {
            BinaryKind::BadHeader => 1,
            BinaryKind::BadLine => 2,
            BinaryKind::OutOfRange => 3,
            BinaryKind::EmptyCycle => 4,
            BinaryKind::EmptySide => 5,
            BinaryKind::WrongWay => 6,
        }
    }

    /// The name of the kind, as messages write it.
    pub fn name(self) -> &'static str
        ensures { result.now ≡ kind_name self }
    {
        match self {
            BinaryKind::BadHeader => "BadHeader",
            BinaryKind::BadLine => "BadLine",
            BinaryKind::OutOfRange => "OutOfRange",
            BinaryKind::EmptyCycle => "EmptyCycle",
            BinaryKind::EmptySide => "EmptySide",
            BinaryKind::WrongWay => "WrongWay",
        }
    }
}

/// A fault of a compiled file, with its line, counted from 1.
#[derive(Clone, Copy, Debug, PartialEq, Eq)]
pub struct BinaryFault {
    pub kind: BinaryKind,
    pub line: u64,
}

/// Why no compiled dictionary was read.
#[derive(Clone, Copy, Debug, PartialEq, Eq, Error)]
pub enum BinaryRefusal {
    /// The file has a fault.
    #[error("the compiled file has a fault")]
    Fault(BinaryFault),
    /// Want of memory.
    #[error("out of memory")]
    Memory,
}

impl From<Memory> for BinaryRefusal {
    ghost use Rattle.std.specs.Prelude.{◌≡◌};
    ghost use Rattle.ap_binary.specs.declared.refusal.BinaryRefusal.TheVariants.{Memory as no_memory};

    ghost from_gives = { λ _ e. e ≡ no_memory };

    fn from(_e: Memory) -> BinaryRefusal {
        BinaryRefusal::Memory
    }
}
