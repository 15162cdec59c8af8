ghost use Rattle.std.specs.Prelude.{◌≡◌, ◌≤◌, ◌-◌, List, length, drop, true, Some};
ghost use Rattle.ap_symbol.specs.declared.symbol.Symbol.{Symbol};
ghost use Rattle.ap_stream.specs.declared.item.Read.{Read};
ghost use Rattle.ap_lookup.specs.PostGenerating.{symbol_of};
ghost use Rattle.ap_lookup.specs.PostSearching.{IsAgreement};

use crate::post_search::symbol_of_item;
use ap_stream::{Item, Read};
use ap_symbol::fits;

/// How far the held items are known to agree with those behind the first `by` of them: the first
/// `count` symbols of the items behind are the first of all.
#[derive(Clone, Copy)]
pub(crate) struct Agreement {
    pub(crate) by: usize,
    pub(crate) count: usize,
}

/// Whether both items have a symbol, and the same one.
fn is_same(one: &Item, other: &Item) -> bool
    ensures { result ≡ true → (x : Symbol) × (symbol_of one.now ≡ Some x)
        × (symbol_of other.now ≡ Some x) }
{
    match (symbol_of_item(one), symbol_of_item(other)) {
        (Some(x), Some(y)) => fits(&x, &y, true),
        _ => false,
    }
}

impl Agreement {
    /// Nothing is known.
    pub(crate) fn none() -> Agreement
        ensures { (reads : List Read) → IsAgreement reads result }
    {
        Agreement { by: 0, count: 0 }
    }

    /// What is known of the items behind so many.
    fn behind(self, by: usize) -> Agreement
        ensures by { result.by ≡ by }
        ensures kept { (reads : List Read) → IsAgreement reads self → IsAgreement reads result }
    {
        if self.by == by {
            return self;
        }
        Agreement { by, count: 0 }
    }

    /// Goes on comparing the items with those behind so many, while they agree, up to so many of
    /// them.
    pub(crate) fn extend(self, reads: &[Read], by: usize, limit: usize) -> Agreement
        requires agreed { IsAgreement reads.now self }
        requires within { by ≤ length reads.now }
        ensures agreed { IsAgreement reads.now result }
        ensures by { result.by ≡ by }
    {
        let mut found = self.behind(by);
        let behind = &reads[by..];
        while found.count < limit && found.count < behind.len() {
            let at = found.count;
            if !is_same(&reads[at].item, &behind[at].item) {
                return found;
            }
            found.count += 1;
        }
        found
    }

    /// What is left of it once the items before those behind are let go.
    pub(crate) fn left(self) -> Agreement
        ensures { (reads : List Read) → IsAgreement reads self →
            IsAgreement (drop self.by reads) result }
    {
        Agreement {
            by: self.by,
            count: self.count.saturating_sub(self.by),
        }
    }
}
