ghost use Rattle.std.specs.Prelude.{◌≡◌};
ghost use Rattle.ap_dix.specs.declared.dictionary.Dictionary.{Dictionary};
ghost use Rattle.ap_dix.specs.declared.dictionary.Direction.{Direction};
ghost use Rattle.ap_fst.specs.Sections.{Parts};
ghost use Rattle.ap_compile.specs.Compiling.{IsCompiledFrom, HaveSameStrings, HaveOneClosure, AreLeast};

use ap_min::{canonical_is_least, canonical_is_one};

/// Two dictionaries that derive the same label strings in each kind of section, and whose alphabets
/// have one closure under case partners, are compiled to equal values.
pub fn same_strings_same_compiled()
    ensures { (d e : Dictionary) (direction : Direction) (a b : Parts) →
        IsCompiledFrom d direction a → IsCompiledFrom e direction b → HaveSameStrings d e direction
        → HaveOneClosure d.alphabet e.alphabet → a ≡ b }
{
    canonical_is_one();
}

/// No transducer with at most one edge per state and label that accepts what a kind of section
/// derives has fewer states than that section of the compiled dictionary.
pub fn compiled_is_least()
    ensures { (d : Dictionary) (direction : Direction) (c : Parts) → IsCompiledFrom d direction c →
        AreLeast d direction c }
{
    canonical_is_least();
}
