ghost use Rattle.std.specs.Prelude.{◌≡◌, ◌≤◌, length, IfSome, false};
ghost use Rattle.std.specs.List.{list_all};
ghost use Rattle.ap_symbol.specs.Fitting.{lists_fit};
ghost use Rattle.ap_symbol.specs.Kinds.{is_tag, is_marked};
ghost use Rattle.ap_chunk.specs.Tests.{first_tag, division};

use ap_symbol::{Symbol, fits, is_marked, is_tag};

/// The place of the first tag, counted from 0; the number of symbols where there is none.
pub(crate) fn first_tag(word: &[Symbol]) -> usize
    ensures value { result ≡ first_tag word.now }
    ensures within { result ≤ length word.now }
{
    for at in 0..word.len() {
        if is_tag(&word[at]) {
            return at;
        }
    }
    word.len()
}

fn are_tags(symbols: &[Symbol]) -> bool
    ensures { result ≡ list_all is_tag symbols.now }
{
    symbols.iter().all(|symbol| is_tag(symbol))
}

/// The place where the tags of a word begin, counted from 0; None where no category takes the
/// word, since it begins with `*` or `@` or has anything else than tags behind its first tag.
pub(crate) fn division(word: &[Symbol]) -> Option<usize>
    ensures value { result ≡ division word.now }
    ensures within { IfSome result (λ at. at ≤ length word.now) }
{
    if is_marked(word) {
        return None;
    }
    let at = first_tag(word);
    if are_tags(&word[at..]) {
        return Some(at);
    }
    None
}

/// Whether two lists have the same length and fit symbol by symbol, where upper case of the word
/// fits lower case of the item.
pub(crate) fn lists_fit(item: &[Symbol], word: &[Symbol]) -> bool
    ensures { result ≡ lists_fit false item.now word.now }
{
    if item.len() != word.len() {
        return false;
    }
    for at in 0..item.len() {
        if !fits(&item[at], &word[at], false) {
            return false;
        }
    }
    true
}
