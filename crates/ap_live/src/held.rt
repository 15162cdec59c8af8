ghost use Rattle.std.specs.Prelude.{◌≡◌, ◌↔◌, ℕ, List, IsTrue, Some, slice_get};
ghost use Rattle.std.specs.List.Sorted.{IsNonDecreasingBy};
ghost use Rattle.ap_fst.specs.declared.label.Edge.{Edge};
ghost use Rattle.ap_fst.specs.Lists.{IsIn};
ghost use Rattle.ap_fst.specs.Machines.{Machine};
ghost use Rattle.ap_live.specs.Fitting.{Input};
ghost use Rattle.ap_live.specs.Rows.{AreRows, IsOrdered, Reach, Tells};
ghost use Rattle.ap_live.specs.Spreads.{arrival_to};
ghost use Rattle.ap_live.specs.declared.rows.Row.{Row};

use crate::arrivals::Arrival;
use crate::rows::Row;
use std::marker::Model;

/// A row. Contracts see the row. Its edges stand in the order of the states that they lead to.
#[derive(Debug, Drop)]
pub struct HeldRow {
    row: Row,
}

impl Model for HeldRow {
    ghost use Rattle.ap_live.specs.declared.rows.Row.{Row};
    ghost use Rattle.ap_live.specs.Rows.{IsOrdered};

    ghost Value = { Row };

    ghost view = { λ h. h.row };

    ghost invariant = { λ h. IsOrdered h.row };
}

impl HeldRow {
    pub(crate) fn new(row: Row) -> HeldRow
        requires { IsOrdered row }
        ensures { result ≡ row }
    {
        HeldRow { row }
    }

    pub(crate) fn row(&self) -> &Row
        ensures value { result.now ≡ self.now }
        ensures order { IsOrdered result.now }
    {
        &self.row
    }

    pub(crate) fn states(&self) -> &[usize]
        ensures { result.now ≡ self.now.states.items }
    {
        self.row().states.as_slice()
    }

    /// The edges that took the last input.
    pub(crate) fn taken(&self) -> &[Arrival]
        ensures value { result.now ≡ self.now.taken.items }
        ensures order { IsNonDecreasingBy arrival_to result.now }
    {
        self.row().taken.as_slice()
    }

    /// The edges with an empty left side.
    pub(crate) fn silent(&self) -> &[Arrival]
        ensures value { result.now ≡ self.now.silent.items }
        ensures order { IsNonDecreasingBy arrival_to result.now }
    {
        self.row().silent.as_slice()
    }

    pub(crate) fn ends(&self) -> bool
        ensures { result ≡ self.now.ends }
    {
        self.row().ends
    }
}

/// Whether the last row has no state.
pub(crate) fn reaches_none(rows: &[HeldRow]) -> bool
    ensures { (edges : List Edge) (seen : List Input) → AreRows edges seen rows.now →
        (IsTrue result ↔ ((s : ℕ) → Reach edges seen s → ⊥)) }
{
    match rows.last() {
        None => true,
        Some(last) => last.states().is_empty(),
    }
}

/// Whether the last row has a final state.
pub(crate) fn ends_finally(rows: &[HeldRow]) -> bool
    ensures { (m : Machine) (seen : List Input) → AreRows m.edges seen rows.now →
        ((at : ℕ) (row : Row) → slice_get rows.now at ≡ Some row → Tells m.finals row) →
        (IsTrue result ↔ ((s : ℕ) × (Reach m.edges seen s × IsIn s m.finals))) }
{
    match rows.last() {
        None => false,
        Some(last) => last.ends(),
    }
}
