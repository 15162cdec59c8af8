ghost use Rattle.std.specs.Prelude.{◌≡◌};
ghost use Rattle.ap_fst.specs.Sections.{Parts, section_of};
ghost use Rattle.ap_fst.specs.declared.compiled.Kind2.{Kind2};
ghost use Rattle.ap_trim.specs.Trimming.{IsTrimmedBy, IsLeastFor, SameLeaveSame};

use ap_min::{canonical_is_least, canonical_is_one};
use ap_symbol::one_rendering;

/// What is left of an analyser is one value.
pub fn trimmed_is_one()
    ensures { (mono bilingual a b : Parts) → IsTrimmedBy mono bilingual a →
        IsTrimmedBy mono bilingual b → a ≡ b }
{
    canonical_is_one();
}

/// Of two analysers that have the same letters and one direction, and whose sections accept the same
/// label strings in each kind, the same is left, by bilingual dictionaries that relate the same
/// words: it is one value.
pub fn same_is_left_of_the_same()
    ensures { SameLeaveSame }
{
    canonical_is_one();
    one_rendering();
}

/// No transducer with at most one edge per state and label that accepts what is left of a kind of
/// section has fewer states than that section of what is left.
pub fn trimmed_is_least()
    ensures { (mono bilingual made : Parts) (kind : Kind2) → IsTrimmedBy mono bilingual made →
        IsLeastFor mono bilingual kind (section_of made kind) }
{
    canonical_is_least();
}
