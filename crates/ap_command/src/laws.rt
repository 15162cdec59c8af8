ghost use Rattle.std.specs.Prelude.{◌≡◌, ℕ, Bool, List};
ghost use Rattle.ap_symbol.specs.Alphabet.{has_letter};
ghost use Rattle.ap_stream.specs.ReadOn.{Links};
ghost use Rattle.ap_dix.specs.declared.dictionary.Dictionary.{Dictionary};
ghost use Rattle.ap_command.specs.Said.{Said, Entries, Sections};
ghost use Rattle.ap_dix.specs.declared.dictionary.Direction.{Direction};
ghost use Rattle.ap_dix.specs.declared.refusal.DixFault.{DixFault};
ghost use Rattle.ap_dix.specs.Sentences.{SpellsDictionary, IsRefusedFor};
ghost use Rattle.ap_rules.specs.declared.refusal.RuleFault.{RuleFault};
ghost use Rattle.ap_rules.specs.declared.rules.Form.{Form};
ghost use Rattle.ap_rules.specs.Plain.{PlainRules};
ghost use Rattle.ap_rules.specs.Sentences.{SpellsRules, IsRefusedFor as AreRefusedFor};
ghost use Rattle.ap_binary.specs.declared.refusal.BinaryFault.{BinaryFault};
ghost use Rattle.ap_binary.specs.Faults.{HasFirstFault};
ghost use Rattle.ap_binary.specs.Grammar.{IsTextOf};
ghost use Rattle.ap_fst.specs.Sections.{Parts, IsCompiled};
ghost use Rattle.ap_compile.specs.Compiling.{IsCompiledFrom, HaveSameStrings, HaveOneClosure, AreLeast};
ghost use Rattle.ap_live.specs.Lexicon.{Lexicon, lexicon_of, IsLexiconOf};
ghost use Rattle.ap_live.specs.Readable.{GivesReadable};
ghost use Rattle.ap_live.specs.Relations.{AreSidesProper, relation_of};
ghost use Rattle.ap_command.specs.declared.words.Mode.{Mode};
ghost use Rattle.ap_command.specs.Output.{IsLexicon};
ghost use Rattle.ap_command.specs.Rows.{Stage, ByFile, Meaning, IsMeaning, AreMeanings, KeepsSuperblanks, read_by, written_by, given_by};
ghost use Rattle.ap_command.specs.Reading.{made_way, Notation, Flaw, SpellsAs, IsFlawAs};
ghost use Rattle.ap_command.specs.Words.{way_of};
ghost use Rattle.ap_pipe.specs.declared.round.Intake.{Intake};
ghost use Rattle.ap_command.specs.Gives.{Streams, Stores, Compiles, Trims, Works};
ghost use Rattle.ap_command.specs.Trims.{SayOneAnalyser, SayOneRelation, IsLeastLeftOf};
ghost use Rattle.ap_command.specs.Account.{Outcome, IsOutcome, stored_outcome};

use ap_analysis::{analysis_is_read, analysis_keeps_superblanks};
use ap_chunk::plain_rules_decide;
use ap_compile::{compiled_is_least, same_strings_same_compiled};
use ap_live::compiled_have_lexicons;
use ap_lookup::{
    bilingual_is_read, bilingual_keeps_superblanks, generation_is_read,
    generation_keeps_superblanks, post_generation_is_read, post_generation_keeps_superblanks,
};
use ap_trim::{same_is_left_of_the_same, trimmed_is_least, trimmed_is_one};

/// A text spells one dictionary at most, by the grammar, or has one first fault, and not both.
fn one_dictionary()
    ensures one { (text : List ℕ) (c d : Dictionary) → SpellsDictionary text c →
        SpellsDictionary text d → c ≡ d }
    ensures one_fault { (text : List ℕ) (e f : DixFault) → IsRefusedFor text e →
        IsRefusedFor text f → e ≡ f }
    ensures no_fault { (text : List ℕ) (d : Dictionary) (f : DixFault) →
        SpellsDictionary text d → IsRefusedFor text f → ⊥ }
{
    ap_dix::spells_one();
    ap_dix::has_one_fault();
    ap_dix::spells_without_fault();
    ap_dix::reads_what_the_grammar_spells();
    ap_dix::refuses_by_the_first_fault();
}

/// The same of rule files.
fn one_rule_file()
    ensures one { (form : Form) (text : List ℕ) (q r : PlainRules) → SpellsRules form text q →
        SpellsRules form text r → q ≡ r }
    ensures one_fault { (form : Form) (text : List ℕ) (e f : RuleFault) →
        AreRefusedFor form text e → AreRefusedFor form text f → e ≡ f }
    ensures no_fault { (form : Form) (text : List ℕ) (r : PlainRules) (f : RuleFault) →
        SpellsRules form text r → AreRefusedFor form text f → ⊥ }
{
    ap_rules::spells_one();
    ap_rules::has_one_fault();
    ap_rules::spells_without_fault();
    ap_rules::reads_what_the_grammar_spells();
    ap_rules::refuses_by_the_first_fault();
}

/// The same of compiled files.
fn one_compiled_file()
    ensures one { (text : List ℕ) (c d : Parts) → IsTextOf text c → IsTextOf text d → c ≡ d }
    ensures one_fault { (text : List ℕ) (e f : BinaryFault) → HasFirstFault text e →
        HasFirstFault text f → e ≡ f }
    ensures no_fault { (text : List ℕ) (c : Parts) (f : BinaryFault) → IsTextOf text c →
        HasFirstFault text f → ⊥ }
{
    ap_binary::spells_one();
    ap_binary::has_one_fault();
    ap_binary::spells_without_fault();
    ap_binary::spells_texts();
    ap_binary::first_fault_in_sentences();
}

/// A text says one thing at most in a notation, or has one first fault, and not both.
pub fn one_reading()
    ensures one { (notation : Notation) (text : List ℕ) (c d : Said) → SpellsAs notation text c →
        SpellsAs notation text d → c ≡ d }
    ensures one_fault { (notation : Notation) (text : List ℕ) (e f : Flaw) →
        IsFlawAs notation text e → IsFlawAs notation text f → e ≡ f }
    ensures no_fault { (notation : Notation) (text : List ℕ) (c : Said) (f : Flaw) →
        SpellsAs notation text c → IsFlawAs notation text f → ⊥ }
{
    one_dictionary();
    one_rule_file();
    one_compiled_file();
}

/// A lexicon of what the sections of a compiled dictionary accept is one of what the entries of the
/// dictionary relate in the direction in which they were compiled.
pub fn dictionary_has_its_lexicon()
    ensures { (d : Dictionary) (way : Direction) (p : Parts) (sensitive : Bool) →
        IsCompiledFrom d way p →
        IsLexiconOf (lexicon_of p sensitive) sensitive (has_letter p.alphabet) (relation_of p) →
        IsLexicon way (Entries d) sensitive (lexicon_of p sensitive) }
{}

/// What is given by a dictionary exists, where it is compiled and the right sides are proper (all
/// of the program's are); and so does what is given by a compiled one.
pub fn some_meaning()
    ensures entries { (mode : Mode) (d : Dictionary) (p : Parts) (sensitive : Bool) →
        IsCompiledFrom d (made_way (way_of mode)) p → AreSidesProper p →
        (m : Meaning) × IsMeaning (ByFile mode (Entries d) sensitive) m }
    ensures sections { (mode : Mode) (p : Parts) (sensitive : Bool) → IsCompiled p →
        AreSidesProper p → (m : Meaning) × IsMeaning (ByFile mode (Sections p) sensitive) m }
{
    dictionary_has_its_lexicon();
    compiled_have_lexicons();
}

/// What `lt-proc` gives in each mode for a text, where it has no fault, has the superblanks of that
/// text, in order, whole: by every lexicon whose right words can be written in a unit and are read
/// again as they are written.
pub fn modes_keep_superblanks()
    ensures { (mode : Mode) (lexicon : Lexicon) (sensitive : Bool) → GivesReadable lexicon →
        KeepsSuperblanks (read_by mode) (written_by mode) (given_by mode lexicon sensitive) }
{
    analysis_keeps_superblanks();
    bilingual_keeps_superblanks();
    generation_keeps_superblanks();
    post_generation_keeps_superblanks();
}

/// What `lt-proc` writes in each mode of any text, with a fault or without, is read on in the
/// dialect of that mode; and a text that is read on in the dialect that it reads is never malformed
/// for it: by every lexicon whose right words can be written in a unit and are read again as they
/// are written.
pub fn modes_are_read()
    ensures { (mode : Mode) (lexicon : Lexicon) (sensitive : Bool) → GivesReadable lexicon →
        Links (read_by mode) (written_by mode) (given_by mode lexicon sensitive) }
{
    analysis_is_read();
    bilingual_is_read();
    generation_is_read();
    post_generation_is_read();
}

/// What the stages of a row give is one meaning each: whatever their files say, of a dictionary
/// too, the lexicon is one alone; and of a rule file the plain rules decide.
pub fn one_meaning()
    ensures { (stages : List Stage) (a b : List Meaning) → AreMeanings stages a →
        AreMeanings stages b → a ≡ b }
{
    plain_rules_decide();
}

/// So a stream has one outcome.
pub fn one_outcome()
    ensures { (stages : List Stage) (input : List ℕ) (ending : Intake) (a b : Outcome) →
        IsOutcome (Streams stages) input ending a →
        IsOutcome (Streams stages) input ending b → a ≡ b }
{
    one_meaning();
}

/// What `lt-comp` stores and writes is one outcome: dictionaries with the same label strings in
/// each kind of section, whose alphabets have one closure under case partners, are stored in one
/// direction as equal bytes. And no transducer with at most one edge per state and label that
/// accepts what a kind of section derives has fewer states than are stored. What `trim` stores and
/// writes is one outcome too, by what its two files say.
pub fn one_stored_outcome()
    ensures same { (d e : Dictionary) (way : Direction) (out : ℕ) (input : List ℕ) (ending : Intake)
        (a b : Outcome) → HaveSameStrings d e way → HaveOneClosure d.alphabet e.alphabet →
        IsOutcome (Stores out (Compiles d way)) input ending a →
        IsOutcome (Stores out (Compiles e way)) input ending b → a ≡ b }
    ensures least { (d : Dictionary) (way : Direction) (out : ℕ) (input : List ℕ) (ending : Intake)
        (o : Outcome) → IsOutcome (Stores out (Compiles d way)) input ending o →
        (made : Parts) × AreLeast d way made × (o ≡ stored_outcome out made) }
    ensures trimmed { (mono bilingual : Said) (out : ℕ) (input : List ℕ) (ending : Intake)
        (a b : Outcome) → IsOutcome (Stores out (Trims mono bilingual)) input ending a →
        IsOutcome (Stores out (Trims mono bilingual)) input ending b → a ≡ b }
{
    same_strings_same_compiled();
    compiled_is_least();
    trimmed_is_one();
}

/// What `trim` stores and writes is one outcome for all files that say the same: analysers with the
/// same label strings in each kind of section, whose alphabets have one closure under case partners
/// and which tell one direction, and bilingual dictionaries that relate the same words, be they
/// compiled or not. And no transducer with at most one edge per state and label that accepts what is
/// left of a kind of section has fewer states than are stored.
pub fn one_trimmed_outcome()
    ensures same { (mono other bilingual second : Said) (out : ℕ) (input : List ℕ) (ending : Intake)
        (a b : Outcome) → SayOneAnalyser mono other → SayOneRelation bilingual second →
        IsOutcome (Stores out (Trims mono bilingual)) input ending a →
        IsOutcome (Stores out (Trims other second)) input ending b → a ≡ b }
    ensures least { (mono bilingual : Said) (out : ℕ) (input : List ℕ) (ending : Intake)
        (o : Outcome) → IsOutcome (Stores out (Trims mono bilingual)) input ending o →
        (made : Parts) × IsLeastLeftOf mono bilingual made × (o ≡ stored_outcome out made) }
{
    same_is_left_of_the_same();
    trimmed_is_least();
}

/// What `work` gives for so many sentences is one outcome.
pub fn one_work_outcome()
    ensures { (sentences : ℕ) (input : List ℕ) (ending : Intake) (a b : Outcome) →
        IsOutcome (Works sentences) input ending a →
        IsOutcome (Works sentences) input ending b → a ≡ b }
{
    one_reading();
    one_meaning();
}
