//! The rows of stages through which streams go.
ghost use Rattle.std.specs.Prelude.{◌≡◌, ◌≤◌, true, false, [], ◌∷◌, None, IfOk, length};
ghost use Rattle.ap_fst.specs.declared.compiled.Way.TheVariants as told;
ghost use Rattle.ap_rules.specs.Views.{plain_rules, makes_chunks};
ghost use Rattle.ap_rules.specs.declared.rules.Form.TheVariants as form;
ghost use Rattle.ap_pipe.specs.Any.{any_fault, any_ended};
ghost use Rattle.ap_command.specs.declared.content.Content.TheVariants.{Sections};
ghost use Rattle.ap_command.specs.declared.reading.Manner.TheVariants.{Either};
ghost use Rattle.ap_command.specs.declared.words.Mode.TheVariants.{A as ModeA, B as ModeB};
ghost use Rattle.ap_command.specs.Reading.{IsKeptAs, ServesAs};
ghost use Rattle.ap_command.specs.Said.{Said};
ghost use Rattle.ap_command.specs.Rows.{ByFile, Transfers, AnalysesAlone, Explains, translation, plain_translation};
ghost use Rattle.ap_command.specs.Stream.{IsRow};
ghost use Rattle.ap_command.specs.Words.{way_of};

use crate::content::Translation;
use crate::stages::{
    alone_stage, compounds_stage, destxt_stage, file_stage, first_stage, interchunk_stage,
    postchunk_stage, pretransfer_stage, retxt_stage, transfer_stage,
};
use crate::words::Mode;
use ap_fst::Compiled;
use ap_pipe::{AnyStage, Row};
use ap_rules::Rules;
use ap_symbol::Memory;
use std::alloc::Global;

/// A row of one stage.
pub(crate) fn one_row(alloc: Global, stage: AnyStage) -> Result<Row<AnyStage>, Memory>
    requires going { any_fault stage ≡ None }
    requires open { any_ended stage ≡ false }
    ensures { IfOk result (λ row. row ≡ stage ∷ []) }
{
    let mut row = Row::new(alloc);
    row.push(stage)?;
    Ok(row)
}

/// Bilingual lookup, as `lt-proc -b` does it, and behind it transfer.
pub(crate) fn looked_up_row(
    alloc: Global,
    compiled: Compiled,
    rules: Rules,
) -> Result<Row<AnyStage>, Memory>
    requires { ServesAs form.Transfer rules }
    ensures some { IfOk result (λ row. 1 ≤ length row) }
    ensures row { (said : Said) → IsKeptAs (Either (way_of ModeB)) said (Sections compiled) →
        IfOk result
        (λ row. IsRow (ByFile ModeB said false ∷ Transfers (plain_rules rules) ∷ []) row) }
{
    let lookup = file_stage(alloc, Mode::B, compiled, false)?;
    let transfer = transfer_stage(alloc, rules)?;
    let mut row = one_row(alloc, lookup)?;
    row.push(transfer)?;
    Ok(row)
}

/// Analysis by the words of a dictionary that stand alone, and behind it unknown words explained as
/// compounds.
pub(crate) fn compound_row(
    alloc: Global,
    compiled: Compiled,
    sensitive: bool,
) -> Result<Row<AnyStage>, Memory>
    ensures some { IfOk result (λ row. 1 ≤ length row) }
    ensures row { (said : Said) → IsKeptAs (Either (way_of ModeA)) said (Sections compiled) →
        IfOk result
        (λ row. IsRow (AnalysesAlone said sensitive ∷ Explains said sensitive ∷ []) row) }
{
    let analysis = alone_stage(alloc, &compiled, sensitive)?;
    let compounds = compounds_stage(alloc, &compiled, sensitive)?;
    let mut row = one_row(alloc, analysis)?;
    row.push(compounds)?;
    Ok(row)
}

/// The nine stages of a whole translation. In all of them letters fit without regard to case.
pub(crate) fn translation_row(alloc: Global, files: Translation) -> Result<Row<AnyStage>, Memory>
    requires transfer { ServesAs form.Transfer files.transfer }
    requires chunks { makes_chunks files.transfer.form files.transfer.default ≡ true }
    requires interchunk { ServesAs form.Interchunk files.interchunk }
    requires postchunk { ServesAs form.Postchunk files.postchunk }
    ensures some { IfOk result (λ row. 1 ≤ length row) }
    ensures nine { IfOk result (λ row. length row ≡ 9) }
    ensures row { (mono bi gen post : Said) →
        IsKeptAs (Either told.Lr) mono (Sections files.analyser) →
        IsKeptAs (Either told.Untold) bi (Sections files.bilingual) →
        IsKeptAs (Either told.Rl) gen (Sections files.generator) →
        IsKeptAs (Either told.Lr) post (Sections files.post_generator) →
        IfOk result (λ row. IsRow (translation mono bi (plain_rules files.transfer)
        (plain_rules files.interchunk) (plain_rules files.postchunk) gen post) row) }
{
    let analysis = file_stage(alloc, Mode::A, files.analyser, false)?;
    let lookup = file_stage(alloc, Mode::B, files.bilingual, false)?;
    let transfer = transfer_stage(alloc, files.transfer)?;
    let interchunk = interchunk_stage(alloc, files.interchunk)?;
    let postchunk = postchunk_stage(alloc, files.postchunk)?;
    let generation = file_stage(alloc, Mode::G, files.generator, false)?;
    let post_generation = file_stage(alloc, Mode::P, files.post_generator, false)?;
    let stages = vec![in alloc;
        analysis,
        first_stage(alloc),
        pretransfer_stage(alloc),
        lookup,
        transfer,
        interchunk,
        postchunk,
        generation,
        post_generation,
    ]?;
    Ok(Row::of(stages))
}

/// The eleven stages of a whole translation of a plain text.
pub(crate) fn text_row(alloc: Global, files: Translation) -> Result<Row<AnyStage>, Memory>
    requires transfer { ServesAs form.Transfer files.transfer }
    requires chunks { makes_chunks files.transfer.form files.transfer.default ≡ true }
    requires interchunk { ServesAs form.Interchunk files.interchunk }
    requires postchunk { ServesAs form.Postchunk files.postchunk }
    ensures some { IfOk result (λ row. 1 ≤ length row) }
    ensures row { (mono bi gen post : Said) →
        IsKeptAs (Either told.Lr) mono (Sections files.analyser) →
        IsKeptAs (Either told.Untold) bi (Sections files.bilingual) →
        IsKeptAs (Either told.Rl) gen (Sections files.generator) →
        IsKeptAs (Either told.Lr) post (Sections files.post_generator) →
        IfOk result (λ row. IsRow (plain_translation mono bi (plain_rules files.transfer)
        (plain_rules files.interchunk) (plain_rules files.postchunk) gen post) row) }
{
    let mut row = translation_row(alloc, files)?;
    row.push_first(destxt_stage(alloc))?;
    row.push(retxt_stage(alloc))?;
    Ok(row)
}
