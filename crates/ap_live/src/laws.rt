ghost use Rattle.std.specs.Prelude.{◌↔◌, List, IsTrue};
ghost use Rattle.std.specs.List.Sorted.{IsStrictlySortedBy};
ghost use Rattle.ap_symbol.specs.Rendering.{word_cmp};
ghost use Rattle.ap_symbol.specs.declared.symbol.Symbol.{Symbol};
ghost use Rattle.ap_fst.specs.Lists.{IsIn};
ghost use Rattle.ap_fst.specs.Machines.{Machine, IsMachine};
ghost use Rattle.ap_fst.specs.Silence.{HasNoEmptyCycle};
ghost use Rattle.ap_fst.specs.Trimming.{IsTrimmed};
ghost use Rattle.ap_live.specs.Fitting.{Input};
ghost use Rattle.ap_live.specs.Outputs.{IsOutput, FitBeginning, WritesProper};
ghost use Rattle.ap_live.specs.Found.{outputs, has_output, is_viable};

use ap_symbol::one_rendering;

/// The law of outputs. They stand in the order of words, each once, and each is the right word of
/// an accepted label list whose left word fits the inputs. In a transducer that has no cycle of
/// edges with an empty left side each such word is there where right sides are proper; and in any
/// case there is an output where there is such a word.
pub fn outputs_law()
    ensures order { (m : Machine) (seen : List Input) →
        IsStrictlySortedBy word_cmp (outputs m seen) }
    ensures sound { (m : Machine) (seen : List Input) (w : List Symbol) → IsIn w (outputs m seen) →
        IsOutput m seen w }
    ensures exact { (m : Machine) (seen : List Input) (w : List Symbol) → IsMachine m →
        HasNoEmptyCycle m → WritesProper m → (IsIn w (outputs m seen) ↔ IsOutput m seen w) }
    ensures some { (m : Machine) (seen : List Input) → IsMachine m → HasNoEmptyCycle m →
        (IsTrue (has_output m seen) ↔ ((w : List Symbol) × IsOutput m seen w)) }
{
    one_rendering();
}

/// The law of beginnings. In a trimmed transducer without a cycle of edges with an empty left side
/// inputs are viable exactly where they fit a beginning of the left word of an accepted label list.
pub fn viable_law()
    ensures { (m : Machine) (seen : List Input) → IsMachine m → HasNoEmptyCycle m → IsTrimmed m →
        (IsTrue (is_viable m seen) ↔ FitBeginning m seen) }
{}
