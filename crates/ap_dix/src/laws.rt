ghost use Rattle.std.specs.Prelude.{◌≡◌, ◌↔◌, ℕ, List, Some};
ghost use Rattle.ap_dix.specs.Forms.{Form};
ghost use Rattle.ap_dix.specs.Grammar.{SpellsExpr};
ghost use Rattle.ap_dix.specs.Machines.{expression};
ghost use Rattle.ap_dix.specs.declared.dictionary.Dictionary.{Dictionary};
ghost use Rattle.ap_dix.specs.declared.refusal.DixFault.{DixFault};
ghost use Rattle.ap_dix.specs.Sentences.{SpellsDictionary, IsRefusedFor};
ghost use Rattle.ap_dix.specs.Soundness.{IsSound};
ghost use Rattle.ap_dix.specs.Spelling.{Spells, IsFirstFault};

/// The law of dictionaries. A text is read as a dictionary exactly where it spells, by the grammar,
/// a tree without fault of which this is the dictionary. It is a statement alone and does nothing,
/// as are the others here.
pub fn reads_what_the_grammar_spells()
    ensures found { (text : List ℕ) (d : Dictionary) → Spells text d → SpellsDictionary text d }
    ensures read { (text : List ℕ) (d : Dictionary) → SpellsDictionary text d → Spells text d }
{}

/// The law of refusals. A text is refused exactly for its first byte that begins no character, its
/// first wrong piece, or the least fault of its tree, by place and then by number.
pub fn refuses_by_the_first_fault()
    ensures found { (text : List ℕ) (f : DixFault) → IsFirstFault text f → IsRefusedFor text f }
    ensures read { (text : List ℕ) (f : DixFault) → IsRefusedFor text f → IsFirstFault text f }
{}

/// A text spells one dictionary at most.
pub fn spells_one()
    ensures { (text : List ℕ) (c d : Dictionary) → Spells text c → Spells text d → c ≡ d }
{}

/// A text has one first fault at most.
pub fn has_one_fault()
    ensures { (text : List ℕ) (e f : DixFault) → IsFirstFault text e → IsFirstFault text f → e ≡ f }
{}

/// A text that spells a dictionary has no fault.
pub fn spells_without_fault()
    ensures { (text : List ℕ) (d : Dictionary) (f : DixFault) → Spells text d →
        IsFirstFault text f → ⊥ }
{}

/// What a text spells is sound.
pub fn spells_is_sound()
    ensures { (text : List ℕ) (d : Dictionary) → Spells text d → IsSound d }
{}

/// The expression that is read of a text is the one that it spells by the grammar, and a text that
/// spells one is read.
pub fn expression_is_spelled()
    ensures { (text : List ℕ) (e : Form) → (expression text ≡ Some e) ↔ SpellsExpr text e }
{}

/// A text spells one expression at most.
pub fn spells_one_expression()
    ensures { (text : List ℕ) (e f : Form) → SpellsExpr text e → SpellsExpr text f → e ≡ f }
{}
