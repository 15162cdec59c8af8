//! What the first step of some items writes.
ghost use Rattle.std.specs.Prelude.{◌≡◌, ◌≤◌, ◌<◌, [], length, take, true, IfOk, Some, None};
ghost use Rattle.ap_rules.specs.Views.{plain_rules};
ghost use Rattle.ap_exec.specs.Acting.{act_of};
ghost use Rattle.ap_exec.specs.Filling.{fill_of};
ghost use Rattle.ap_exec.specs.Results.{Gives as Ran};
ghost use Rattle.ap_chunk.specs.Carrying.{Held};
ghost use Rattle.ap_chunk.specs.Chunks.{first_words};
ghost use Rattle.ap_chunk.specs.Matches.{matched_of, blanks_of};
ghost use Rattle.ap_chunk.specs.Parts.{parts_of};
ghost use Rattle.ap_chunk.specs.Stages.{rule_step, unmatched_step, chosen_step, chunk_step};
ghost use Rattle.ap_chunk.specs.Working.{meant, Gave, IsRefused};
ghost use Rattle.ap_chunk.specs.Searching.{IsTaken, IsFront};

use crate::chunks::{first_words, is_overfull};
use crate::known::KnownUnits;
use crate::matches::{blanks_of, has_chunk, lent_of};
use crate::parts::Room;
use crate::search::Front;
use crate::unmatched::write_unmatched;
use ap_exec::{ExecRefusal, LentTemplate, Vars, act_lent, fill_lent, let_go};
use ap_rules::Rules;
use ap_stream::{LimitKind, Queue, Read, UNIT_MAX};
use ap_symbol::{Bytes, Memory, Word};
use std::alloc::Global;

/// What a step does: it uses so many items and writes this, or it stops at a limit.
#[derive(Drop)]
pub(crate) enum Written {
    Gives { count: usize, text: Bytes },
    Stops { kind: LimitKind },
}

/// The template that a rule gives for these items. Variables are left as the rule leaves them.
fn run<'a>(
    alloc: Global,
    rules: &Rules,
    rule: usize,
    reads: &'a [Read],
    words: &'a [Word],
    known: &'a KnownUnits,
    room: &mut Room,
    vars: &mut Vars,
) -> Result<LentTemplate<'a>, ExecRefusal>
    requires { words.now ≡ first_words rules.now.form reads.now }
    ensures { Ran (λ pieces. record { pieces = pieces; vars = vars.new }) result
        (act_of (plain_rules rules.now) rule (matched_of rules.now.form reads.now) vars.old) }
{
    let units = lent_of(alloc, rules.form, reads, words, known, room)?;
    let chunk = has_chunk(rules.form);
    let spare = &mut room.spare;
    act_lent(alloc, rules, rule, chunk, units, vars, spare)
}

/// The text of a template, filled with the blanks of these items, in the room of `text`.
fn filled(
    alloc: Global,
    template: &LentTemplate<'_>,
    reads: &[Read],
    text: Bytes,
) -> Result<Bytes, ExecRefusal>
    requires { text ≡ [] }
    ensures { Ran (λ b. b) result (fill_of template.now (blanks_of reads.now)) }
{
    let blanks = blanks_of(alloc, reads)?;
    fill_lent(alloc, template, &blanks, text)
}

/// What a rule gives for these items, in the room of `text`. Variables are left as the rule leaves
/// them.
fn output(
    alloc: Global,
    rules: &Rules,
    rule: usize,
    reads: &[Read],
    words: &[Word],
    known: &KnownUnits,
    room: &mut Room,
    vars: &mut Vars,
    text: Bytes,
) -> Result<Bytes, ExecRefusal>
    requires words { words.now ≡ first_words rules.now.form reads.now }
    requires empty { text ≡ [] }
    ensures { Gave result vars.new (length reads.now)
        (rule_step rules.now rule vars.old reads.now) }
{
    let template = run(alloc, rules, rule, reads, words, known, room, vars)?;
    let made = filled(alloc, &template, reads, text);
    let_go(template, &mut room.spare);
    made
}

/// A step that a rule refuses.
fn refused(refusal: ExecRefusal) -> Result<Written, Memory>
    ensures { IfOk result (IsRefused refusal) }
{
    match refusal {
        ExecRefusal::ValueTooLong => Ok(Written::Stops {
            kind: LimitKind::ValueTooLong,
        }),
        ExecRefusal::OutputTooLong => Ok(Written::Stops {
            kind: LimitKind::OutputTooLong,
        }),
        ExecRefusal::Memory => Err(Memory),
    }
}

/// The step in which a rule is run on these items. Variables are left as the rule leaves them.
pub(crate) fn rule_step(
    alloc: Global,
    rules: &Rules,
    rule: usize,
    reads: &[Read],
    words: &[Word],
    known: &KnownUnits,
    room: &mut Room,
    vars: &mut Vars,
    text: Bytes,
) -> Result<Written, Memory>
    requires words { words.now ≡ first_words rules.now.form reads.now }
    requires empty { text ≡ [] }
    ensures { IfOk result
        (λ made. meant made vars.new ≡ rule_step rules.now rule vars.old reads.now) }
{
    match output(alloc, rules, rule, reads, words, known, room, vars, text) {
        Ok(text) => {
            let count = reads.len();
            Ok(Written::Gives { count, text })
        }
        Err(refusal) => refused(refusal),
    }
}

/// The step in which one item is written without a match, into the text, which is empty.
pub(crate) fn unmatched_step(
    alloc: Global,
    rules: &Rules,
    reads: &[Read],
    words: &[Word],
    room: &mut Room,
    mut text: Bytes,
) -> Result<Written, Memory>
    requires some { 0 < length reads.now }
    requires words { words.now ≡ first_words rules.now.form reads.now }
    requires empty { text ≡ [] }
    ensures { (vars : Held) →
        IfOk result (λ made. meant made vars ≡ unmatched_step rules.now vars reads.now) }
{
    write_unmatched(alloc, rules, &reads[0].item, words, room, &mut text)?;
    if text.as_slice().len() > UNIT_MAX {
        return Ok(Written::Stops {
            kind: LimitKind::UnitTooLong,
        });
    }
    Ok(Written::Gives { count: 1, text })
}

/// The step that is chosen for the items, where these are the words of the first one in postchunk.
fn chosen_step(
    alloc: Global,
    rules: &Rules,
    reads: &[Read],
    front: Front,
    words: &[Word],
    known: &KnownUnits,
    room: &mut Room,
    vars: &mut Vars,
    text: Bytes,
) -> Result<Written, Memory>
    requires some { 0 < length reads.now }
    requires taken { IsTaken front.choice front.taken (parts_of rules.now reads.now) }
    requires within { front.taken ≤ length reads.now }
    requires words { words.now ≡ first_words rules.now.form reads.now }
    requires empty { text ≡ [] }
    ensures { IfOk result (λ made. meant made vars.new
        ≡ chosen_step rules.now vars.old reads.now front.choice) }
{
    match front.choice {
        None => unmatched_step(alloc, rules, reads, words, room, text),
        Some(choice) => {
            if choice.size == 0 {
                return unmatched_step(alloc, rules, reads, words, room, text);
            }
            let taken = &reads[..front.taken];
            rule_step(
                alloc,
                rules,
                choice.rule,
                taken,
                words,
                known,
                room,
                vars,
                text,
            )
        }
    }
}

/// The first step of the items, by what the search found at their front. It is written into the
/// text, which is empty, and variables are left as it leaves them.
pub(crate) fn first_step(
    alloc: Global,
    rules: &Rules,
    items: &Queue,
    front: Front,
    known: &KnownUnits,
    room: &mut Room,
    vars: &mut Vars,
    mut text: Bytes,
) -> Result<Written, Memory>
    requires some { 0 < length items.now }
    requires front { IsFront true rules.now items.now front }
    requires empty { text ≡ [] }
    ensures { IfOk result (λ made. meant made vars.new ≡ chunk_step rules.now vars.old items.now) }
{
    if items.is_over(front.span) {
        return Ok(Written::Stops {
            kind: LimitKind::SpanTooLong,
        });
    }
    let reads = items.as_slice();
    let words = first_words(alloc, rules.form, reads, room)?;
    if is_overfull(rules.form, reads, words.as_slice(), &mut text)? {
        return Ok(Written::Stops {
            kind: LimitKind::UnitTooLong,
        });
    }
    chosen_step(
        alloc,
        rules,
        reads,
        front,
        words.as_slice(),
        known,
        room,
        vars,
        text,
    )
}
