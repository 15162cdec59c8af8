ghost use Rattle.std.specs.Prelude.{◌≡◌, ℕ, Bool, List};
ghost use Rattle.ap_symbol.specs.Alphabet.{has_letter};
ghost use Rattle.ap_symbol.specs.declared.symbol.Symbol.{Symbol};
ghost use Rattle.ap_fst.specs.Sections.{Parts, IsCompiled};
ghost use Rattle.ap_fst.specs.declared.compiled.Kind2.{Kind2};
ghost use Rattle.ap_live.specs.Lexicon.{Lexicon, IsLexiconOf, IsCoherent, lexicon_of};
ghost use Rattle.ap_live.specs.Relations.{AreSidesProper, AreSameRelations, Passes, relation_of};

use ap_fst::Compiled;
use ap_symbol::one_rendering;

/// The lexicon of a compiled dictionary is that of what its sections accept: of each kind the
/// readings of some symbols are the right words of the label strings that the section accepts and
/// whose left word fits the symbols, in the order of words, each once; and the symbols are viable
/// where they fit a beginning of such a left word. It is coherent too.
pub fn compiled_have_lexicons()
    ensures exact { (p : Parts) (sensitive : Bool) → IsCompiled p → AreSidesProper p →
        IsLexiconOf (lexicon_of p sensitive) sensitive (has_letter p.alphabet) (relation_of p) }
    ensures coherent { (p : Parts) (sensitive : Bool) → IsCompiled p →
        IsCoherent (lexicon_of p sensitive) }
{
    one_rendering();
}

/// The right sides of compiled dictionaries are proper, as their labels are plain. It takes no
/// time.
pub fn sides_are_proper(compiled: &Compiled)
    ensures { AreSidesProper compiled.now }
{
    let _ = compiled.alphabet();
}

/// So the lexicon of each of the program's compiled dictionaries is that of what its sections
/// accept. It takes no time.
pub fn compiled_has_a_lexicon(compiled: &Compiled)
    ensures { (sensitive : Bool) →
        IsLexiconOf (lexicon_of compiled.now sensitive) sensitive (has_letter compiled.now.alphabet)
        (relation_of compiled.now) }
{
    compiled_have_lexicons();
    sides_are_proper(compiled);
    let _ = compiled.alphabet();
}

/// A relation between left words and right words, for each kind of section, has one lexicon at
/// most, over an alphabet and with case counting or not: be it what sections accept, or what passes
/// a test.
pub fn one_lexicon()
    ensures accepted { (sensitive : Bool) (letters : ℕ → Bool) (p : Parts) (a b : Lexicon) →
        IsLexiconOf a sensitive letters (relation_of p) →
        IsLexiconOf b sensitive letters (relation_of p) → a ≡ b }
    ensures tested { (sensitive : Bool) (letters : ℕ → Bool) (test : Kind2 → List Symbol →
        List Symbol → Bool) (a b : Lexicon) → IsLexiconOf a sensitive letters (Passes test) →
        IsLexiconOf b sensitive letters (Passes test) → a ≡ b }
{}

/// A lexicon is that of each relation that relates the same words, over an alphabet that agrees:
/// so dictionaries that relate the same words have the same lexicon.
pub fn same_relation_same_lexicon()
    ensures accepted { (lexicon : Lexicon) (sensitive : Bool) (letters others : ℕ → Bool)
        (p q : Parts) → AreSameRelations (relation_of p) (relation_of q) →
        ((c : ℕ) → letters c ≡ others c) → IsLexiconOf lexicon sensitive letters (relation_of p) →
        IsLexiconOf lexicon sensitive others (relation_of q) }
    ensures tested { (lexicon : Lexicon) (sensitive : Bool) (letters others : ℕ → Bool) (p : Parts)
        (test : Kind2 → List Symbol → List Symbol → Bool) →
        AreSameRelations (relation_of p) (Passes test) → ((c : ℕ) → letters c ≡ others c) →
        IsLexiconOf lexicon sensitive letters (relation_of p) →
        IsLexiconOf lexicon sensitive others (Passes test) }
    ensures compiled { (sensitive : Bool) (p q : Parts) → IsCompiled p → AreSidesProper p →
        IsCompiled q → AreSidesProper q → AreSameRelations (relation_of p) (relation_of q) →
        ((c : ℕ) → has_letter p.alphabet c ≡ has_letter q.alphabet c) →
        lexicon_of p sensitive ≡ lexicon_of q sensitive }
{
    one_rendering();
}
