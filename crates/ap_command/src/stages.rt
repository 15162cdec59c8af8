//! The stages of a row, each made of what is kept of a file.
ghost use Rattle.std.specs.Prelude.{◌≡◌, ℕ, false, List, None, IfOk};
ghost use Rattle.ap_stream.specs.Told.{Ending};
ghost use Rattle.ap_live.specs.Lexicon.{lexicon_of};
ghost use Rattle.ap_rules.specs.Views.{plain_rules};
ghost use Rattle.ap_rules.specs.declared.rules.Form.TheVariants as form;
ghost use Rattle.ap_pipe.specs.Any.{any_rest, any_fault, any_ended};
ghost use Rattle.ap_command.specs.declared.content.Content.TheVariants.{Sections};
ghost use Rattle.ap_command.specs.declared.reading.Manner.TheVariants.{Either};
ghost use Rattle.ap_command.specs.Reading.{IsKeptAs, ServesAs};
ghost use Rattle.ap_command.specs.Said.{Said};
ghost use Rattle.ap_command.specs.Rows.{ByFile, FirstReadings, SplitWords, Chooses, Transfers, Interchunks, Postchunks, Deformats, Reformats, AnalysesAlone, Explains, given_by};
ghost use Rattle.ap_command.specs.Stream.{IsStage};
ghost use Rattle.ap_command.specs.Words.{way_of};
ghost use Rattle.ap_command.specs.declared.words.Mode.TheVariants.{A};

use crate::laws::{dictionary_has_its_lexicon, modes_are_read, modes_keep_superblanks};
use crate::words::Mode;
use ap_analysis::Analysis;
use ap_choose::{Choose, Forbidden, choose_is_read, choose_keeps_superblanks};
use ap_chunk::{
    Interchunk, Postchunk, Transfer, interchunk_is_read, postchunk_is_read,
    sound_interchunk_keeps_superblanks, sound_postchunk_keeps_superblanks,
    sound_transfer_keeps_superblanks, transfer_is_read,
};
use ap_compound::{Compounds, compound_is_read, compound_keeps_superblanks, plain};
use ap_format::{Destxt, Retxt, destxt_is_read};
use ap_fst::Compiled;
use ap_live::{compiled_has_a_lexicon, words_are_readable};
use ap_lookup::{Bilingual, Generation, Marks, PostGeneration};
use ap_passes::{
    First, Pretransfer, first_is_read, first_keeps_superblanks, pretransfer_is_read,
    pretransfer_keeps_superblanks,
};
use ap_pipe::AnyStage;
use ap_rules::Rules;
use ap_symbol::Memory;
use std::alloc::Global;

/// What `lt-proc` does in that mode by a compiled dictionary.
fn mode_stage(
    alloc: Global,
    mode: Mode,
    compiled: Compiled,
    sensitive: bool,
) -> Result<AnyStage, Memory>
    ensures rest { IfOk result (λ made. (x : List ℕ) (e : Ending) →
        any_rest made x e ≡ given_by mode (lexicon_of compiled sensitive) sensitive x e) }
    ensures going { IfOk result (λ made. any_fault made ≡ None) }
    ensures open { IfOk result (λ made. any_ended made ≡ false) }
{
    let marks = match mode {
        Mode::A => return Ok(AnyStage::Analysis(Analysis::new(alloc, compiled, sensitive)?)),
        Mode::B => return Ok(AnyStage::Bilingual(Bilingual::new(alloc, compiled, sensitive)?)),
        Mode::G => Marks::Marked,
        Mode::N => Marks::Clean,
        Mode::D => Marks::Tagged,
        Mode::P => {
            let stage = PostGeneration::new(alloc, compiled, sensitive)?;
            return Ok(AnyStage::PostGeneration(stage));
        }
    };
    let stage = Generation::new(alloc, compiled, marks, sensitive)?;
    Ok(AnyStage::Generation(stage))
}

/// What `lt-proc` does in that mode by what is kept of the file.
pub(crate) fn file_stage(
    alloc: Global,
    mode: Mode,
    compiled: Compiled,
    sensitive: bool,
) -> Result<AnyStage, Memory>
    ensures going { IfOk result (λ made. any_fault made ≡ None) }
    ensures open { IfOk result (λ made. any_ended made ≡ false) }
    ensures stage { (said : Said) → IsKeptAs (Either (way_of mode)) said (Sections compiled) →
        IfOk result (λ made. IsStage (ByFile mode said sensitive) made) }
{
    dictionary_has_its_lexicon();
    modes_keep_superblanks();
    modes_are_read();
    compiled_has_a_lexicon(&compiled);
    words_are_readable(&compiled);
    mode_stage(alloc, mode, compiled, sensitive)
}

/// The first reading of each unit.
pub(crate) fn first_stage(alloc: Global) -> AnyStage
    ensures going { any_fault result ≡ None }
    ensures open { any_ended result ≡ false }
    ensures stage { IsStage FirstReadings result }
{
    first_keeps_superblanks();
    first_is_read();
    let stage = First::new(alloc);
    AnyStage::First(stage)
}

/// Words taken apart.
pub(crate) fn pretransfer_stage(alloc: Global) -> AnyStage
    ensures going { any_fault result ≡ None }
    ensures open { any_ended result ≡ false }
    ensures stage { IsStage SplitWords result }
{
    pretransfer_keeps_superblanks();
    pretransfer_is_read();
    let stage = Pretransfer::new(alloc);
    AnyStage::Pretransfer(stage)
}

/// One reading of each unit, by forbidden pairs of tags.
pub(crate) fn choose_stage(alloc: Global, forbidden: Forbidden) -> Result<AnyStage, Memory>
    ensures going { IfOk result (λ made. any_fault made ≡ None) }
    ensures open { IfOk result (λ made. any_ended made ≡ false) }
    ensures stage { IfOk result (λ made. IsStage (Chooses forbidden) made) }
{
    choose_keeps_superblanks();
    choose_is_read();
    let stage = Choose::new(alloc, forbidden)?;
    Ok(AnyStage::Choose(stage))
}

/// Transfer by rules.
pub(crate) fn transfer_stage(alloc: Global, rules: Rules) -> Result<AnyStage, Memory>
    requires { ServesAs form.Transfer rules }
    ensures going { IfOk result (λ made. any_fault made ≡ None) }
    ensures open { IfOk result (λ made. any_ended made ≡ false) }
    ensures stage { IfOk result (λ made. IsStage (Transfers (plain_rules rules)) made) }
{
    sound_transfer_keeps_superblanks();
    transfer_is_read();
    let stage = Transfer::new(alloc, rules)?;
    Ok(AnyStage::Transfer(stage))
}

/// Interchunk by rules.
pub(crate) fn interchunk_stage(alloc: Global, rules: Rules) -> Result<AnyStage, Memory>
    requires { ServesAs form.Interchunk rules }
    ensures going { IfOk result (λ made. any_fault made ≡ None) }
    ensures open { IfOk result (λ made. any_ended made ≡ false) }
    ensures stage { IfOk result (λ made. IsStage (Interchunks (plain_rules rules)) made) }
{
    sound_interchunk_keeps_superblanks();
    interchunk_is_read();
    let stage = Interchunk::new(alloc, rules)?;
    Ok(AnyStage::Interchunk(stage))
}

/// Postchunk by rules.
pub(crate) fn postchunk_stage(alloc: Global, rules: Rules) -> Result<AnyStage, Memory>
    requires { ServesAs form.Postchunk rules }
    ensures going { IfOk result (λ made. any_fault made ≡ None) }
    ensures open { IfOk result (λ made. any_ended made ≡ false) }
    ensures stage { IfOk result (λ made. IsStage (Postchunks (plain_rules rules)) made) }
{
    sound_postchunk_keeps_superblanks();
    postchunk_is_read();
    let stage = Postchunk::new(alloc, rules)?;
    Ok(AnyStage::Postchunk(stage))
}

/// A plain text made a text of the stream.
pub(crate) fn destxt_stage(alloc: Global) -> AnyStage
    ensures going { any_fault result ≡ None }
    ensures open { any_ended result ≡ false }
    ensures stage { IsStage Deformats result }
{
    destxt_is_read();
    let stage = Destxt::new(alloc);
    AnyStage::Destxt(stage)
}

/// A generated text made a plain text.
pub(crate) fn retxt_stage(alloc: Global) -> AnyStage
    ensures going { any_fault result ≡ None }
    ensures open { any_ended result ≡ false }
    ensures stage { IsStage Reformats result }
{
    let stage = Retxt::new(alloc);
    AnyStage::Retxt(stage)
}

/// Analysis by the words of a compiled dictionary that stand alone.
pub(crate) fn alone_stage(
    alloc: Global,
    compiled: &Compiled,
    sensitive: bool,
) -> Result<AnyStage, Memory>
    ensures going { IfOk result (λ made. any_fault made ≡ None) }
    ensures open { IfOk result (λ made. any_ended made ≡ false) }
    ensures stage { (said : Said) → IsKeptAs (Either (way_of A)) said (Sections compiled.now) →
        IfOk result (λ made. IsStage (AnalysesAlone said sensitive) made) }
{
    modes_keep_superblanks();
    modes_are_read();
    let alone = plain(alloc, compiled)?;
    compiled_has_a_lexicon(&alone);
    words_are_readable(&alone);
    mode_stage(alloc, Mode::A, alone, sensitive)
}

/// Unknown words explained as compounds by a compiled dictionary.
pub(crate) fn compounds_stage(
    alloc: Global,
    compiled: &Compiled,
    sensitive: bool,
) -> Result<AnyStage, Memory>
    ensures going { IfOk result (λ made. any_fault made ≡ None) }
    ensures open { IfOk result (λ made. any_ended made ≡ false) }
    ensures stage { (said : Said) → IsKeptAs (Either (way_of A)) said (Sections compiled.now) →
        IfOk result (λ made. IsStage (Explains said sensitive) made) }
{
    dictionary_has_its_lexicon();
    compound_keeps_superblanks();
    compound_is_read();
    compiled_has_a_lexicon(compiled);
    words_are_readable(compiled);
    let stage = Compounds::new(alloc, compiled, sensitive)?;
    Ok(AnyStage::Compounds(stage))
}
