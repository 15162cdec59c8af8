ghost use Rattle.std.specs.Prelude.{◌≡◌};
ghost use Rattle.ap_dix.specs.Refusals.{kind_number, kind_name};

use ap_markup::Numbered;
use ap_symbol::Memory;
use thiserror::Error;

/// What is wrong in a dictionary file.
#[derive(Clone, Copy, Debug, PartialEq, Eq)]
pub enum DixKind {
    NotUtf8,
    Syntax,
    UnknownElement,
    UnknownAttribute,
    MissingAttribute,
    Misplaced,
    DuplicateName,
    UndeclaredSymbol,
    UndefinedParadigm,
    BadRegex,
    Weighted,
    Unsupported,
}

impl Numbered for DixKind {
    ghost number_of = { kind_number };

    fn number(self) -> u64 {
        DixKind::number(self) as u64
    }
}

impl DixKind {
    /// The number of the kind, from 1 to 12.
    pub fn number(self) -> u8
        ensures { result ≡ kind_number self }
    {
        match self {
            DixKind::NotUtf8 => 1,
            DixKind::Syntax => 2,
            DixKind::UnknownElement => 3,
            DixKind::UnknownAttribute => 4,
            DixKind::MissingAttribute => 5,
            DixKind::Misplaced => 6,
            DixKind::DuplicateName => 7,
            DixKind::UndeclaredSymbol => 8,
            DixKind::UndefinedParadigm => 9,
            DixKind::BadRegex => 10,
            DixKind::Weighted => 11,
            DixKind::Unsupported => 12,
        }
    }

    /// The name of the kind, as messages write it.
    pub fn name(self) -> &'static str
        ensures { result.now ≡ kind_name self }
    {
        match self {
            DixKind::NotUtf8 => "NotUtf8",
            DixKind::Syntax => "Syntax",
            DixKind::UnknownElement => "UnknownElement",
            DixKind::UnknownAttribute => "UnknownAttribute",
            DixKind::MissingAttribute => "MissingAttribute",
            DixKind::Misplaced => "Misplaced",
            DixKind::DuplicateName => "DuplicateName",
            DixKind::UndeclaredSymbol => "UndeclaredSymbol",
            DixKind::UndefinedParadigm => "UndefinedParadigm",
            DixKind::BadRegex => "BadRegex",
            DixKind::Weighted => "Weighted",
            DixKind::Unsupported => "Unsupported",
        }
    }
}

/// A fault of a dictionary file, with its line, counted from 1.
#[derive(Clone, Copy, Debug, PartialEq, Eq)]
pub struct DixFault {
    pub kind: DixKind,
    pub line: u64,
}

/// Why no dictionary was read.
#[derive(Clone, Copy, Debug, PartialEq, Eq, Error)]
pub enum DixRefusal {
    /// The file has a fault.
    #[error("the dictionary has a fault")]
    Fault(DixFault),
    /// Want of memory.
    #[error("out of memory")]
    Memory,
}

impl From<Memory> for DixRefusal {
    ghost use Rattle.std.specs.Prelude.{◌≡◌};
    ghost use Rattle.ap_dix.specs.declared.refusal.DixRefusal.TheVariants.{Memory as no_memory};

    ghost from_gives = { λ _ e. e ≡ no_memory };

    fn from(_e: Memory) -> DixRefusal {
        DixRefusal::Memory
    }
}
