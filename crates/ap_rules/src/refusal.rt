ghost use Rattle.std.specs.Prelude.{◌≡◌};
ghost use Rattle.ap_rules.specs.Refusals.{kind_number, kind_name};

use ap_markup::Numbered;
use ap_symbol::Memory;
use thiserror::Error;

/// What is wrong in a rule file.
#[derive(Clone, Copy, Debug, PartialEq, Eq)]
pub enum RuleKind {
    NotUtf8,
    Syntax,
    UnknownElement,
    UnknownAttribute,
    MissingAttribute,
    Misplaced,
    DuplicateName,
    UndefinedName,
    BadPosition,
    BadTags,
    PatternLength,
    Misused,
    Unsupported,
}

impl Numbered for RuleKind {
    ghost number_of = { kind_number };

    fn number(self) -> u64 {
        RuleKind::number(self) as u64
    }
}

impl RuleKind {
    /// The number of the kind, from 1 to 13.
    pub fn number(self) -> u8
        ensures { result ≡ kind_number self }
    {
        match self {
            RuleKind::NotUtf8 => 1,
            RuleKind::Syntax => 2,
            RuleKind::UnknownElement => 3,
            RuleKind::UnknownAttribute => 4,
            RuleKind::MissingAttribute => 5,
            RuleKind::Misplaced => 6,
            RuleKind::DuplicateName => 7,
            RuleKind::UndefinedName => 8,
            RuleKind::BadPosition => 9,
            RuleKind::BadTags => 10,
            RuleKind::PatternLength => 11,
            RuleKind::Misused => 12,
            RuleKind::Unsupported => 13,
        }
    }

    /// The name of the kind, as messages write it.
    pub fn name(self) -> &'static str
        ensures { result.now ≡ kind_name self }
    {
        match self {
            RuleKind::NotUtf8 => "NotUtf8",
            RuleKind::Syntax => "Syntax",
            RuleKind::UnknownElement => "UnknownElement",
            RuleKind::UnknownAttribute => "UnknownAttribute",
            RuleKind::MissingAttribute => "MissingAttribute",
            RuleKind::Misplaced => "Misplaced",
            RuleKind::DuplicateName => "DuplicateName",
            RuleKind::UndefinedName => "UndefinedName",
            RuleKind::BadPosition => "BadPosition",
            RuleKind::BadTags => "BadTags",
            RuleKind::PatternLength => "PatternLength",
            RuleKind::Misused => "Misused",
            RuleKind::Unsupported => "Unsupported",
        }
    }
}

/// A fault of a rule file, with its line, counted from 1.
#[derive(Clone, Copy, Debug, PartialEq, Eq)]
pub struct RuleFault {
    pub kind: RuleKind,
    pub line: u64,
}

/// Why no rules were read.
#[derive(Clone, Copy, Debug, PartialEq, Eq, Error)]
pub enum RuleRefusal {
    /// The file has a fault.
    #[error("the rule file has a fault")]
    Fault(RuleFault),
    /// Want of memory.
    #[error("out of memory")]
    Memory,
}

impl From<Memory> for RuleRefusal {
    ghost use Rattle.std.specs.Prelude.{◌≡◌};
    ghost use Rattle.ap_rules.specs.declared.refusal.RuleRefusal.TheVariants.{Memory as no_memory};

    ghost from_gives = { λ _ e. e ≡ no_memory };

    fn from(_e: Memory) -> RuleRefusal {
        RuleRefusal::Memory
    }
}
