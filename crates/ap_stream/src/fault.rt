ghost use Rattle.std.specs.Prelude.{◌≡◌};

use ap_symbol::Memory;
use thiserror::Error;

/// Why a text is no text of its dialect.
#[derive(Clone, Copy, Debug, PartialEq, Eq)]
pub enum MalformedKind {
    /// The bytes begin no UTF-8 character, whatever follows.
    NotUtf8,
    /// A bare character that the dialect doesn't allow there.
    Stray,
    /// The text ends inside the item.
    Unfinished,
    /// A tag has no name, or its name holds a character that no name holds.
    BadTag,
    /// An empty word where none is allowed.
    EmptyWord,
}

/// Which limit was passed.
#[derive(Clone, Copy, Debug, PartialEq, Eq)]
pub enum LimitKind {
    /// An item of the stream.
    ItemTooLong,
    /// The input held for one match.
    SpanTooLong,
    /// What is written for one unit without a rule.
    UnitTooLong,
    /// One value of a rule.
    ValueTooLong,
    /// The output of one rule.
    OutputTooLong,
    /// One file.
    FileTooLong,
    /// The whole input.
    InputTooLong,
}

/// Why reading a stream stopped. The place is the offset, in bytes, of the first byte of the item
/// or match in the input of that reader; a place above 2^64 - 1 is given as 2^64 - 1.
#[derive(Clone, Copy, Debug, PartialEq, Eq, Error)]
pub enum StreamFault {
    /// The text isn't of its dialect.
    #[error("malformed stream at byte {place}")]
    Malformed { kind: MalformedKind, place: u64 },
    /// A limit was passed.
    #[error("limit passed at byte {place}")]
    Limit { kind: LimitKind, place: u64 },
    /// No memory was found.
    #[error("out of memory")]
    Memory,
}

/// Why a stage stopped.
pub type StageFault = StreamFault;

impl From<Memory> for StreamFault {
    ghost use Rattle.ap_stream.specs.declared.fault.StreamFault.TheVariants as fault;

    ghost from_gives = { λ _ e. e ≡ fault.Memory };

    fn from(_e: Memory) -> StreamFault {
        StreamFault::Memory
    }
}
