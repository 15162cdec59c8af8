ghost use Rattle.std.specs.Prelude.{◌≡◌, ℕ, List};
ghost use Rattle.ap_markup.specs.Deep.{pruned};
ghost use Rattle.ap_markup.specs.Forms.{SpellsText};
ghost use Rattle.ap_markup.specs.Tree.{Parts};
ghost use Rattle.ap_rules.specs.Children.{Children, children};
ghost use Rattle.ap_rules.specs.Mistakes.{Fault};
ghost use Rattle.ap_rules.specs.Plain.{PlainRules};
ghost use Rattle.ap_rules.specs.SectionRows.{AreRules};
ghost use Rattle.ap_rules.specs.Sentences.{HasAnyFault, SpellsRules, IsRefusedFor};
ghost use Rattle.ap_rules.specs.Soundness.{IsSound};
ghost use Rattle.ap_rules.specs.Spelling.{Spells, IsFirstFault, rules_in};
ghost use Rattle.ap_rules.specs.Worded.{AreWorded};
ghost use Rattle.ap_rules.specs.declared.refusal.RuleFault.{RuleFault};
ghost use Rattle.ap_rules.specs.declared.rules.Form.{Form};

/// The law of rule files. A text is read as rules exactly where it spells, by the grammar, a tree
/// without fault of which these are the rules. It is a statement alone and does nothing, as are the
/// others here.
pub fn reads_what_the_grammar_spells()
    ensures found { (form : Form) (text : List ℕ) (r : PlainRules) → Spells form text r →
        SpellsRules form text r }
    ensures read { (form : Form) (text : List ℕ) (r : PlainRules) → SpellsRules form text r →
        Spells form text r }
{}

/// The law of refusals. A text is refused exactly for its first byte that begins no character, its
/// first wrong piece, or the least fault of its tree, by place and then by number.
pub fn refuses_by_the_first_fault()
    ensures found { (form : Form) (text : List ℕ) (f : RuleFault) → IsFirstFault form text f →
        IsRefusedFor form text f }
    ensures read { (form : Form) (text : List ℕ) (f : RuleFault) → IsRefusedFor form text f →
        IsFirstFault form text f }
{}

/// The law of rows. Every tree without fault is some rules by the table, each element by its row
/// and none passed over; and a tree that is these rules by the table is read as them and no others.
pub fn reads_each_row()
    ensures every { (form : Form) (text : List ℕ) (whole : Parts) → SpellsText text whole →
        ((f : Fault) → HasAnyFault form whole f → ⊥) →
        (r : PlainRules) × AreRules form (children (pruned 200 whole)) r }
    ensures read { (form : Form) (tree : Children) (r : PlainRules) → AreRules form tree r →
        rules_in form tree ≡ r }
    ensures one { (form : Form) (tree : Children) (q r : PlainRules) → AreRules form tree q →
        AreRules form tree r → q ≡ r }
{}

/// A text spells the rules of one file at most.
pub fn spells_one()
    ensures { (form : Form) (text : List ℕ) (q r : PlainRules) → Spells form text q →
        Spells form text r → q ≡ r }
{}

/// A text has one first fault at most.
pub fn has_one_fault()
    ensures { (form : Form) (text : List ℕ) (e f : RuleFault) → IsFirstFault form text e →
        IsFirstFault form text f → e ≡ f }
{}

/// A text that spells rules has no fault.
pub fn spells_without_fault()
    ensures { (form : Form) (text : List ℕ) (r : PlainRules) (f : RuleFault) → Spells form text r →
        IsFirstFault form text f → ⊥ }
{}

/// What a text spells is sound.
pub fn spells_is_sound()
    ensures { (form : Form) (text : List ℕ) (r : PlainRules) → Spells form text r → IsSound r }
{}

/// The words of what a text spells are words of the program.
pub fn spells_words()
    ensures { (form : Form) (text : List ℕ) (r : PlainRules) → Spells form text r → AreWorded r }
{}
