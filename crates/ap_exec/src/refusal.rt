ghost use Rattle.std.specs.Prelude.{◌≡◌};
ghost use Rattle.ap_exec.specs.declared.refusal.ExecRefusal.TheVariants.{Memory};

use ap_symbol::Memory;
use thiserror::Error;

/// Why a rule gives nothing.
#[derive(Clone, Copy, Debug, PartialEq, Eq, Error)]
pub enum ExecRefusal {
    /// A value of the rule is longer than a unit may be.
    #[error("a value is too long")]
    ValueTooLong,
    /// The output is longer than a span may be.
    #[error("the output is too long")]
    OutputTooLong,
    /// Want of memory.
    #[error("out of memory")]
    Memory,
}

impl From<Memory> for ExecRefusal {
    ghost from_gives = { λ _ e. e ≡ Memory };

    fn from(_e: Memory) -> ExecRefusal {
        ExecRefusal::Memory
    }
}
