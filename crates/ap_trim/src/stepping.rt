ghost use Rattle.std.specs.Prelude.{◌≡◌, ◌↔◌, ◌<◌, ◌∷◌, [], false, true, length, IsTrue, IfOk};
ghost use Rattle.std.specs.Option.{option_to_list};
ghost use Rattle.ap_symbol.specs.Kinds.{is_joint as joint_test};
ghost use Rattle.ap_det.specs.Subsets.{HoldsFinal};
ghost use Rattle.ap_trim.specs.Numbers.{Keeps};
ghost use Rattle.ap_trim.specs.Products.{HasSight, GoesOn};
ghost use Rattle.ap_trim.specs.Stepping.{StepsTo, GoesBehind, IsGoodSight, BeginsWith};
ghost use Rattle.ap_trim.specs.declared.watch.Watch.TheVariants.{Lemma};

use crate::closing::closed;
use crate::reading::targets_of;
use crate::sets::Sets;
use crate::watch::{Watch, is_joint};
use ap_fst::Fst;
use ap_symbol::{Memory, Symbol, is_tag};
use std::alloc::Global;

/// Whether one of these states is final.
fn holds_final(fst: &Fst, set: &[usize]) -> bool
    ensures { IsTrue result ↔ HoldsFinal fst.now set.now }
{
    for state in set {
        if fst.is_final(*state) {
            return true;
        }
    }
    false
}

/// What is known of the empty word.
pub(crate) fn begin(alloc: Global, fst: &Fst, sets: &mut Sets) -> Result<Watch, Memory>
    ensures { IfOk result (λ watch. BeginsWith fst.now sets.new watch) }
{
    let set = closed(alloc, fst, &[0])?;
    let number = sets.number(alloc, set.as_slice())?;
    Ok(Watch::Lemma(number))
}

/// The number of the set of the states that read a symbol more.
fn next_set(
    alloc: Global,
    fst: &Fst,
    symbol: &Symbol,
    number: usize,
    sets: &mut Sets,
) -> Result<usize, Memory>
    requires { number < length sets.old }
    ensures { IfOk result (λ next. StepsTo fst.now symbol.now sets.old sets.new number next) }
{
    let targets = targets_of(alloc, fst, sets.get(number), symbol)?;
    let set = closed(alloc, fst, targets.as_slice())?;
    let next = sets.number(alloc, set.as_slice())?;
    Ok(next)
}

/// A symbol more, behind which the word has a tag: it is kept from now on where what was read so
/// far is accepted.
fn step_behind(
    alloc: Global,
    fst: &Fst,
    symbol: &Symbol,
    number: usize,
    sets: &mut Sets,
) -> Result<Watch, Memory>
    requires { number < length sets.old }
    ensures goes { IfOk result (λ watch. GoesBehind fst.now symbol.now sets.new number watch) }
    ensures keeps { IfOk result (λ watch. Keeps sets.old sets.new) }
{
    let next = next_set(alloc, fst, symbol, number, sets)?;
    if holds_final(fst, sets.get(next)) {
        return Ok(Watch::Kept);
    }
    Ok(Watch::Tags(next))
}

/// A symbol more behind a word that has no tag.
fn step_lemma(
    alloc: Global,
    fst: &Fst,
    symbol: &Symbol,
    number: usize,
    sets: &mut Sets,
) -> Result<Watch, Memory>
    requires number { number < length sets.old }
    requires unjoined { joint_test symbol.now ≡ false }
    ensures goes { IfOk result (λ watch. GoesOn fst.now sets.new (Lemma number) watch
        (symbol.now ∷ [])) }
    ensures keeps { IfOk result (λ watch. Keeps sets.old sets.new) }
{
    if !is_tag(symbol) {
        let next = next_set(alloc, fst, symbol, number, sets)?;
        return Ok(Watch::Lemma(next));
    }
    if holds_final(fst, sets.get(number)) {
        return Ok(Watch::Kept);
    }
    let watch = step_behind(alloc, fst, symbol, number, sets)?;
    Ok(watch)
}

/// A symbol more.
fn step_by(
    alloc: Global,
    fst: &Fst,
    symbol: &Symbol,
    watch: Watch,
    sets: &mut Sets,
) -> Result<Watch, Memory>
    requires { HasSight sets.old watch }
    ensures goes { IfOk result (λ next. GoesOn fst.now sets.new watch next (symbol.now ∷ [])) }
    ensures keeps { IfOk result (λ next. Keeps sets.old sets.new) }
{
    if is_joint(symbol) {
        return Ok(Watch::Kept);
    }
    match watch {
        Watch::Kept => Ok(Watch::Kept),
        Watch::Lemma(number) => {
            let next = step_lemma(alloc, fst, symbol, number, sets)?;
            Ok(next)
        }
        Watch::Tags(number) => {
            let next = step_behind(alloc, fst, symbol, number, sets)?;
            Ok(next)
        }
    }
}

/// What is known behind a right side, which may be empty.
pub(crate) fn step(
    alloc: Global,
    fst: &Fst,
    side: &Option<Symbol>,
    watch: Watch,
    sets: &mut Sets,
) -> Result<Watch, Memory>
    requires { HasSight sets.old watch }
    ensures goes { IfOk result (λ next. GoesOn fst.now sets.new watch next
        (option_to_list side.now)) }
    ensures keeps { IfOk result (λ next. Keeps sets.old sets.new) }
{
    match side {
        None => Ok(watch),
        Some(symbol) => {
            let next = step_by(alloc, fst, symbol, watch, sets)?;
            Ok(next)
        }
    }
}

/// Whether the word is kept if it ends here.
pub(crate) fn is_good(fst: &Fst, sets: &Sets, watch: Watch) -> bool
    requires { HasSight sets.now watch }
    ensures { IsTrue result ↔ IsGoodSight fst.now sets.now watch }
{
    match watch {
        Watch::Kept => true,
        Watch::Lemma(number) => holds_final(fst, sets.get(number)),
        Watch::Tags(_) => false,
    }
}
