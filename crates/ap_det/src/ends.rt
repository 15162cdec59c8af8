ghost use Rattle.std.specs.Prelude.{◌↔◌, IsTrue, OnOk};
ghost use Rattle.ap_det.specs.Subsets.{HoldsFinal, AddsFinal};

use ap_fst::{Finals, Fst};
use ap_symbol::Memory;

/// Whether one of these states is final.
fn holds_final(fst: &Fst, set: &[usize]) -> bool
    ensures { IsTrue result ↔ HoldsFinal fst.now set.now }
{
    for state in set {
        if fst.is_final(*state) {
            return true;
        }
    }
    false
}

/// Adds the number of a set to the final ones where one of its states is final.
pub(crate) fn add_final(
    fst: &Fst,
    set: &[usize],
    number: usize,
    finals: &mut Finals,
) -> Result<(), Memory>
    ensures { OnOk result (AddsFinal fst.now set.now number finals.old finals.new) }
{
    if holds_final(fst, set) {
        return finals.push(number);
    }
    Ok(())
}
