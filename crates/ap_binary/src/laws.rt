ghost use Rattle.std.specs.Prelude.{◌≡◌, ◌↔◌, ℕ, List};
ghost use Rattle.ap_fst.specs.Sections.{Parts, IsCompiled};
ghost use Rattle.ap_binary.specs.Faults.{HasFirstFault};
ghost use Rattle.ap_binary.specs.Grammar.{IsTextOf};
ghost use Rattle.ap_binary.specs.Held.{IsHeld};
ghost use Rattle.ap_binary.specs.Spelling.{Spells, IsFirstFault};
ghost use Rattle.ap_binary.specs.Text.{compiled_text};
ghost use Rattle.ap_binary.specs.declared.refusal.BinaryFault.{BinaryFault};
ghost use Rattle.ap_binary.specs.declared.refusal.BinaryKind.TheVariants.{WrongWay};

/// A text spells one compiled dictionary at most. It is a statement alone and does nothing, as are
/// the others here.
pub fn spells_one()
    ensures { (text : List ℕ) (c d : Parts) → Spells text c → Spells text d → c ≡ d }
{}

/// A text has one first fault at most.
pub fn has_one_fault()
    ensures { (text : List ℕ) (e f : BinaryFault) → IsFirstFault text e →
        IsFirstFault text f → e ≡ f }
{}

/// The law of the first fault. A fault is the first of a text exactly where the sentences on
/// compiled files say so: the lines before its line have their forms, are in order and in range,
/// and this one isn't; or all are, and it is that of the first section with an empty cycle or an
/// empty side.
pub fn first_fault_in_sentences()
    ensures { (text : List ℕ) (f : BinaryFault) → IsFirstFault text f ↔ HasFirstFault text f }
{}

/// No text has the fault WrongWay: whether the direction that it tells is wanted, its place says.
pub fn never_wrong_way()
    ensures { (text : List ℕ) (f : BinaryFault) → IsFirstFault text f → f.kind ≡ WrongWay → ⊥ }
{}

/// A text that spells a compiled dictionary has no fault.
pub fn spells_without_fault()
    ensures { (text : List ℕ) (c : Parts) (f : BinaryFault) → Spells text c →
        IsFirstFault text f → ⊥ }
{}

/// What a text spells is a compiled dictionary: trimmed, without empty cycles and empty sides.
pub fn spells_compiled()
    ensures { (text : List ℕ) (c : Parts) → Spells text c → IsCompiled c }
{}

/// What `write_compiled` writes is read again as the same value.
pub fn reads_what_is_written()
    ensures { (c : Parts) → IsCompiled c → IsHeld c → Spells (compiled_text c) c }
{}

/// A text spells a compiled dictionary exactly where it is the text of a direction or none, an
/// alphabet and four sections, each without an empty cycle and an empty side, of which trimming
/// leaves that dictionary.
pub fn spells_texts()
    ensures { (text : List ℕ) (c : Parts) → Spells text c ↔ IsTextOf text c }
{}
