ghost use Rattle.std.specs.Prelude.{◌≡◌};
ghost use Rattle.ap_det.specs.Determinism.{IsDeterministic};

use ap_fst::Fst;
use std::marker::Model;

/// A transducer with at most one edge per state and label.
#[derive(Debug, Drop)]
pub struct Dfst {
    fst: Fst,
}

impl Model for Dfst {
    ghost use Rattle.ap_fst.specs.Machines.{Machine};
    ghost use Rattle.ap_det.specs.Determinism.{IsDeterministic};

    ghost Value = { Machine };

    ghost view = { λ d. d.fst };

    ghost invariant = { λ d. IsDeterministic d.fst };
}

impl Dfst {
    /// The transducer seen as one of these. It takes no memory.
    pub(crate) fn of(fst: Fst) -> Dfst
        requires { IsDeterministic fst }
        ensures { result ≡ fst }
    {
        Dfst { fst }
    }

    /// The transducer. It takes no memory.
    pub fn as_fst(&self) -> &Fst
        ensures value { result.now ≡ self.now }
        ensures deterministic { IsDeterministic self.now }
    {
        &self.fst
    }

    /// The transducer, with its states, edges and final states. It takes no memory.
    pub fn into_fst(self) -> Fst
        ensures value { result ≡ self }
        ensures deterministic { IsDeterministic self }
    {
        let Dfst { fst } = self;
        fst
    }
}
