ghost use Rattle.std.specs.Prelude.{◌≡◌, ◌≤◌, ◌↔◌, length, IfSome, IsTrue, OnOk};
ghost use Rattle.std.specs.List.{list_any};
ghost use Rattle.ap_chunk.specs.Categories.{Takes};
ghost use Rattle.ap_chunk.specs.Tests.{division, fits_lemma, takes_tagged, item_takes, takes_at, takes, row_of};

use crate::tags::take_tags;
use crate::words::{division, lists_fit};
use ap_rules::{CatItem, DefCat, Form, Rules};
use ap_symbol::{Memory, Symbol, Word};

fn fits_lemma(wanted: &Option<Word>, lemma: &[Symbol]) -> bool
    ensures { result ≡ fits_lemma wanted.now lemma.now }
{
    match wanted {
        None => true,
        Some(word) => lists_fit(word.symbols(), lemma),
    }
}

fn takes_tagged(item: &CatItem, lemma: &[Symbol], tags: &[Symbol]) -> bool
    ensures { result ≡ takes_tagged item.now lemma.now tags.now }
{
    fits_lemma(&item.lemma, lemma) && take_tags(item.tags.symbols(), tags)
}

/// Whether an item takes a word of this lemma and these tags.
fn item_takes(form: Form, item: &CatItem, lemma: &[Symbol], tags: &[Symbol]) -> bool
    ensures { result ≡ item_takes form item.now lemma.now tags.now }
{
    match form {
        Form::Transfer => takes_tagged(item, lemma, tags),
        Form::Interchunk => takes_tagged(item, lemma, tags),
        Form::Postchunk => lists_fit(item.name.symbols(), lemma),
    }
}

fn some_takes(form: Form, items: &[CatItem], lemma: &[Symbol], tags: &[Symbol]) -> bool
    ensures { result ≡ list_any (λ item. item_takes form item lemma.now tags.now) items.now }
{
    items.iter().any(|item| item_takes(form, item, lemma, tags))
}

/// Whether a category takes a word whose tags begin at this place, if any category may take it.
fn takes_at(form: Form, category: &DefCat, word: &[Symbol], at: Option<usize>) -> bool
    requires { IfSome at (λ n. n ≤ length word.now) }
    ensures { result ≡ takes_at form category.now word.now at }
{
    match at {
        None => false,
        Some(at) => some_takes(form, category.items.as_slice(), &word[..at], &word[at..]),
    }
}

/// Whether a category takes a word (the Apertium transfer format): one of its items does. In
/// transfer and interchunk an item takes a word whose tags, all of them and in order, are its
/// tags, where a star among them stands for one or more, and whose lemma fits its lemma, where it
/// gives one; in postchunk it takes a word whose lemma fits its name. A lemma is what stands
/// before the first tag, and upper case of the word fits lower case of the item. No category
/// takes a word that begins with `*` or `@`, or one with anything else than tags behind its first
/// tag.
pub fn takes(form: Form, category: &DefCat, word: &[Symbol]) -> bool
    ensures value { result ≡ takes form category.now word.now }
    ensures exact { IsTrue result ↔ Takes form category.now word.now }
{
    takes_at(form, category, word, division(word))
}

/// Makes of `into` the row of a word: for each category of the rules, in order, whether it takes
/// the word. The error means want of memory.
pub fn row(rules: &Rules, word: &[Symbol], into: &mut Vec<bool>) -> Result<(), Memory>
    ensures { OnOk result (into.new.items ≡ row_of rules.now word.now) }
{
    into.clear();
    let at = division(word);
    for category in rules.categories.as_slice() {
        into.push(takes_at(rules.form, category, word, at))?;
    }
    Ok(())
}
