ghost use Rattle.std.specs.Prelude.{◌≡◌, ◌<◌, length, [], ◌∷◌, IfOk, IfErr, true, false};
ghost use Rattle.ap_outside.specs.Told.{Loads};
ghost use Rattle.ap_dix.specs.Soundness.{IsSound};
ghost use Rattle.ap_dix.specs.Sentences.{SpellsDictionary};
ghost use Rattle.ap_compile.specs.Compiling.{IsCompiledFrom};
ghost use Rattle.ap_rules.specs.Soundness.{IsSound as AreSound};
ghost use Rattle.ap_rules.specs.Sentences.{SpellsRules};
ghost use Rattle.ap_rules.specs.Views.{plain_rules, makes_chunks};
ghost use Rattle.ap_rules.specs.Worded.{AreWorded};
ghost use Rattle.ap_rules.specs.declared.rules.Form.TheVariants as form;
ghost use Rattle.ap_command.specs.Said.{Entries, Sections, Pairs};
ghost use Rattle.ap_command.specs.Messages.{name_at, IsTold};
ghost use Rattle.ap_command.specs.Words.{texts, AreWithin};
ghost use Rattle.ap_command.specs.Outside.{files_stand};
ghost use Rattle.ap_command.specs.Reading.{is_compiled_file, is_other_way, made_way, AsDictionary, AsCompiled, AsRules, AsPairs, SpellsAs, HasEmptyInput, IsSpellingRefusal, IsCompiledRefusal, IsChunkingRefusal, IsUncompiled, IsTextRefusal, IsMadeOf, IsMakingRefusal, Keeps};
ghost use Rattle.ap_command.specs.Answer.{Reaches, IsRefusal, AreOpened};

use crate::content::Content;
use crate::messages::name;
use crate::reading::{Manner, Reading};
use crate::status::Status;
use ap_binary::{BinaryRefusal, first_fault_in_sentences, read_compiled, spells_texts};
use ap_choose::{Forbidden, PairRefusal, read_pairs};
use ap_compile::{CompileRefusal, compile};
use ap_dix::{Dictionary, Direction, DixRefusal, read_dictionary};
use ap_fst::{Compiled, Way};
use ap_outside::{Files, LoadRefusal};
use ap_rules::{
    Form, RuleRefusal, Rules, read_rules, reads_what_the_grammar_spells,
    refuses_by_the_first_fault, spells_words,
};
use std::alloc::Global;

/// The most bytes of a file.
pub const FILE_MAX: u64 = 67_108_864;

fn read_entries(alloc: Global, text: &[u8], file: usize) -> Result<Dictionary, Status>
    ensures spelled { IfOk result (λ d. SpellsDictionary text.now d) }
    ensures sound { IfOk result (λ d. IsSound d) }
    ensures refused { IfErr result (λ s. IsSpellingRefusal AsDictionary file text.now s) }
{
    ap_dix::reads_what_the_grammar_spells();
    ap_dix::refuses_by_the_first_fault();
    match read_dictionary(alloc, text) {
        Ok(dictionary) => Ok(dictionary),
        Err(DixRefusal::Fault(fault)) => Err(Status::BadDictionary {
            file,
            fault: fault.kind.number(),
            line: fault.line,
        }),
        Err(DixRefusal::Memory) => Err(Status::Memory),
    }
}

fn read_sections(alloc: Global, text: &[u8], file: usize) -> Result<Compiled, Status>
    ensures spelled { IfOk result (λ c. SpellsAs AsCompiled text.now (Sections c)) }
    ensures refused { IfErr result (λ s. IsSpellingRefusal AsCompiled file text.now s) }
{
    spells_texts();
    first_fault_in_sentences();
    match read_compiled(alloc, text) {
        Ok(compiled) => Ok(compiled),
        Err(BinaryRefusal::Fault(fault)) => Err(Status::BadCompiled {
            file,
            fault: fault.kind.number(),
            line: fault.line,
        }),
        Err(BinaryRefusal::Memory) => Err(Status::Memory),
    }
}

/// Whether a compiled file tells a direction that isn't the one that is needed, where one is.
fn is_other_way(needed: Way, told: Way) -> bool
    ensures { result ≡ is_other_way needed told }
{
    match needed {
        Way::Lr => matches!(told, Way::Rl),
        Way::Rl => matches!(told, Way::Lr),
        Way::Untold => false,
    }
}

/// The direction in which a dictionary is compiled where this one is needed.
fn made_way(needed: Way) -> Direction
    ensures { result ≡ made_way needed }
{
    match needed {
        Way::Lr | Way::Untold => Direction::Lr,
        Way::Rl => Direction::Rl,
    }
}

/// Reads a compiled file, which may tell no other direction than this one, where one is needed.
fn read_told(alloc: Global, text: &[u8], way: Way, file: usize) -> Result<Compiled, Status>
    ensures spelled { IfOk result (λ c. SpellsAs AsCompiled text.now (Sections c)) }
    ensures fits { IfOk result (λ c. is_other_way way c.way ≡ false) }
    ensures refused { IfErr result (λ s. IsCompiledRefusal text.now way file s) }
{
    match read_sections(alloc, text, file) {
        Err(status) => Err(status),
        Ok(compiled) => {
            if is_other_way(way, compiled.way()) {
                return Err(Status::BadCompiled {
                    file,
                    fault: 6,
                    line: 2,
                });
            }
            Ok(compiled)
        }
    }
}

/// The dictionary, compiled in that direction. It is refused exactly where it has an empty input
/// side, but for want of memory.
fn compile_entries(
    alloc: Global,
    dictionary: &Dictionary,
    way: Direction,
    file: usize,
) -> Result<Compiled, Status>
    requires { IsSound dictionary.now }
    ensures made { IfOk result (λ compiled. IsCompiledFrom dictionary.now way compiled) }
    ensures sides { IfOk result (λ compiled. HasEmptyInput way (Entries dictionary.now) → ⊥) }
    ensures refused { IfErr result (λ s. IsUncompiled dictionary.now way file s) }
{
    match compile(alloc, dictionary, way) {
        Err(CompileRefusal::EmptySide { line }) => Err(Status::BadDictionary {
            file,
            fault: 13,
            line,
        }),
        Err(CompileRefusal::Memory) => Err(Status::Memory),
        Ok(compiled) => Ok(compiled),
    }
}

/// Reads a dictionary and compiles it in that direction.
fn read_made(alloc: Global, text: &[u8], way: Direction, file: usize) -> Result<Compiled, Status>
    ensures made { IfOk result (λ p. IsMadeOf text.now way p) }
    ensures refused { IfErr result (λ s. IsMakingRefusal text.now way file s) }
{
    match read_entries(alloc, text, file) {
        Err(status) => Err(status),
        Ok(dictionary) => compile_entries(alloc, &dictionary, way, file),
    }
}

fn read_ruled(alloc: Global, text: &[u8], form: Form, file: usize) -> Result<Rules, Status>
    ensures spelled { IfOk result (λ r. SpellsRules form text.now (plain_rules r)) }
    ensures formed { IfOk result (λ r. r.form ≡ form) }
    ensures sound { IfOk result (λ r. AreSound (plain_rules r)) }
    ensures worded { IfOk result (λ r. AreWorded (plain_rules r)) }
    ensures refused { IfErr result (λ s. IsSpellingRefusal (AsRules form) file text.now s) }
{
    spells_words();
    reads_what_the_grammar_spells();
    refuses_by_the_first_fault();
    match read_rules(alloc, text, form) {
        Ok(rules) => Ok(rules),
        Err(RuleRefusal::Fault(fault)) => Err(Status::BadRules {
            file,
            fault: fault.kind.number(),
            line: fault.line,
        }),
        Err(RuleRefusal::Memory) => Err(Status::Memory),
    }
}

/// Reads rules of transfer. Where they make no chunks, they are refused at their root.
fn read_chunking(alloc: Global, text: &[u8], file: usize) -> Result<Rules, Status>
    ensures spelled { IfOk result (λ r. SpellsRules form.Transfer text.now (plain_rules r)) }
    ensures formed { IfOk result (λ r. r.form ≡ form.Transfer) }
    ensures sound { IfOk result (λ r. AreSound (plain_rules r)) }
    ensures worded { IfOk result (λ r. AreWorded (plain_rules r)) }
    ensures chunks { IfOk result (λ r. makes_chunks r.form r.default ≡ true) }
    ensures refused { IfErr result (λ s. IsChunkingRefusal text.now file s) }
{
    match read_ruled(alloc, text, Form::Transfer, file) {
        Err(status) => Err(status),
        Ok(rules) => {
            if rules.makes_chunks() {
                return Ok(rules);
            }
            Err(Status::BadRules {
                file,
                fault: 12,
                line: rules.line(),
            })
        }
    }
}

fn read_paired(alloc: Global, text: &[u8], file: usize) -> Result<Forbidden, Status>
    ensures spelled { IfOk result (λ pairs. SpellsAs AsPairs text.now (Pairs pairs)) }
    ensures refused { IfErr result (λ s. IsSpellingRefusal AsPairs file text.now s) }
{
    match read_pairs(alloc, text) {
        Ok(pairs) => Ok(pairs),
        Err(PairRefusal::BadPair { line }) => Err(Status::BadRules {
            file,
            fault: 14,
            line,
        }),
        Err(PairRefusal::Memory) => Err(Status::Memory),
    }
}

/// A file that begins with `LTC` is a compiled one.
fn is_compiled_file(text: &[u8]) -> bool
    ensures { result ≡ is_compiled_file text.now }
{
    text.starts_with(b"LTC")
}

/// Reads a text, and keeps what is needed of what it says.
fn read(alloc: Global, text: &[u8], reading: Reading) -> Result<Content, Status>
    ensures kept { IfOk result (λ k. Keeps reading.manner text.now k) }
    ensures refused { IfErr result (λ s. IsTextRefusal reading text.now s) }
{
    match reading.manner {
        Manner::Plain => match read_entries(alloc, text, reading.place) {
            Err(status) => Err(status),
            Ok(dictionary) => Ok(Content::Entries(dictionary)),
        },
        Manner::Made(way) => match read_made(alloc, text, way, reading.place) {
            Err(status) => Err(status),
            Ok(compiled) => Ok(Content::Sections(compiled)),
        },
        Manner::Ruled(form) => match read_ruled(alloc, text, form, reading.place) {
            Err(status) => Err(status),
            Ok(rules) => Ok(Content::Rules(rules)),
        },
        Manner::Chunking => match read_chunking(alloc, text, reading.place) {
            Err(status) => Err(status),
            Ok(rules) => Ok(Content::Rules(rules)),
        },
        Manner::Paired => match read_paired(alloc, text, reading.place) {
            Err(status) => Err(status),
            Ok(pairs) => Ok(Content::Pairs(pairs)),
        },
        Manner::Either(way) => {
            if is_compiled_file(text) {
                match read_told(alloc, text, way, reading.place) {
                    Err(status) => Err(status),
                    Ok(compiled) => Ok(Content::Sections(compiled)),
                }
            } else {
                match read_made(alloc, text, made_way(way), reading.place) {
                    Err(status) => Err(status),
                    Ok(compiled) => Ok(Content::Sections(compiled)),
                }
            }
        }
    }
}

/// The bytes of the file of that name.
fn load<F: Files>(
    alloc: Global,
    files: &mut F,
    words: &[String],
    reading: Reading,
) -> Result<Vec<u8>, Status>
    requires { reading.place < length words.now }
    ensures loaded { IfOk result
        (λ text. Loads (F.contents files.old) (name_at (texts words.now) reading.place) FILE_MAX
        text.items) }
    ensures calm { IfOk result (λ _. files_stand F.Files files.new
        ≡ files_stand F.Files files.old) }
    ensures refused { IfErr result
        (λ s. IsRefusal (texts words.now) (files_stand F.Files files.old)
        (files_stand F.Files files.new) s reading) }
    ensures told { IfErr result (λ s. IsTold s (length words.now)) }
    ensures kept { F.contents files.new ≡ F.contents files.old }
{
    match files.load(alloc, name(words, reading.place), FILE_MAX) {
        Err(LoadRefusal::Failed) => Err(Status::FileFault {
            file: reading.place,
        }),
        Err(LoadRefusal::TooLong) => Err(Status::Limit {
            stage: 0,
            kind: 6,
            place: reading.place as u64,
        }),
        Err(LoadRefusal::Memory) => Err(Status::Memory),
        Ok(text) => Ok(text),
    }
}

/// Loads a file and reads it.
fn open<F: Files>(
    alloc: Global,
    files: &mut F,
    words: &[String],
    reading: Reading,
) -> Result<Content, Status>
    requires { reading.place < length words.now }
    ensures opened { IfOk result
        (λ kept. AreOpened (texts words.now) (files_stand F.Files files.old) (reading ∷ [])
        (kept ∷ [])) }
    ensures calm { IfOk result (λ _. files_stand F.Files files.new
        ≡ files_stand F.Files files.old) }
    ensures refused { IfErr result
        (λ s. IsRefusal (texts words.now) (files_stand F.Files files.old)
        (files_stand F.Files files.new) s reading) }
    ensures told { IfErr result (λ s. IsTold s (length words.now)) }
    ensures kept { F.contents files.new ≡ F.contents files.old }
{
    match load(alloc, files, words, reading) {
        Err(status) => Err(status),
        Ok(text) => read(alloc, text.as_slice(), reading),
    }
}

/// Loads the files and reads them, one after another, up to the first that is refused.
pub(crate) fn open_all<F: Files>(
    alloc: Global,
    files: &mut F,
    words: &[String],
    readings: &[Reading],
) -> Result<Vec<Content>, Status>
    requires { AreWithin (length words.now) readings.now }
    ensures opened { IfOk result
        (λ kept. AreOpened (texts words.now) (files_stand F.Files files.old) readings.now
        kept.items) }
    ensures calm { IfOk result (λ _. files_stand F.Files files.new
        ≡ files_stand F.Files files.old) }
    ensures refused { IfErr result
        (λ s. Reaches (texts words.now) (files_stand F.Files files.old) readings.now
        (λ r. IsRefusal (texts words.now) (files_stand F.Files files.old)
        (files_stand F.Files files.new) s r)) }
    ensures told { IfErr result (λ s. IsTold s (length words.now)) }
    ensures kept { F.contents files.new ≡ F.contents files.old }
{
    let mut contents = Vec::new(alloc);
    for reading in readings {
        match open(alloc, files, words, *reading) {
            Err(status) => return Err(status),
            Ok(content) => {
                if contents.push(content).is_err() {
                    return Err(Status::Memory);
                }
            }
        }
    }
    Ok(contents)
}
