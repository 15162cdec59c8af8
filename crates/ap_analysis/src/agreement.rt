ghost use Rattle.std.specs.Prelude.{◌≡◌, ◌≤◌, ℕ, List, length, drop};
ghost use Rattle.ap_stream.specs.declared.item.Read.{Read};
ghost use Rattle.ap_analysis.specs.Agreements.{IsAgreement};

use crate::items::mark_of_item;
use ap_stream::Read;

/// How far the items behind the first `by` are known to be like those in front: the first `count`
/// have the same marks.
#[derive(Clone, Copy)]
pub(crate) struct Agreement {
    pub(crate) by: usize,
    pub(crate) count: usize,
}

/// Nothing is known.
pub(crate) fn no_agreement() -> Agreement
    ensures { (reads : List Read) → IsAgreement reads result }
{
    Agreement { by: 0, count: 0 }
}

impl Agreement {
    /// How many items behind so many are known to be like those in front.
    fn known(&self, by: usize) -> usize
        ensures { (reads : List Read) → IsAgreement reads self.now →
            IsAgreement reads (record { by = by; count = result }) }
    {
        if self.by == by { self.count } else { 0 }
    }

    /// Counts on, for the items behind so many, up to the first that is different, or to the last
    /// that is asked for.
    pub(crate) fn counted(&self, reads: &[Read], by: usize, last: usize) -> Agreement
        requires { by ≤ length reads.now }
        ensures agrees { IsAgreement reads.now self.now → IsAgreement reads.now result }
        ensures by { result.by ≡ by }
    {
        let behind = &reads[by..];
        let mut count = self.known(by);
        while count <= last && count < behind.len() {
            if mark_of_item(&reads[count].item) != mark_of_item(&behind[count].item) {
                return Agreement { by, count };
            }
            count += 1;
        }
        Agreement { by, count }
    }

    /// What is left of it for the items behind.
    pub(crate) fn behind(&self) -> Agreement
        ensures { (reads : List Read) → IsAgreement reads self.now →
            IsAgreement (drop self.now.by reads) result }
    {
        Agreement {
            by: self.by,
            count: self.count.saturating_sub(self.by),
        }
    }
}
