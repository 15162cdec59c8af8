use ap_dix::{Entry, EntryPart};

/// A list of entries that is open on the way to the next line: that of a section or of a paradigm.
#[derive(Clone, Copy)]
pub(crate) struct Frame<'a> {
    /// The entries that were not taken yet.
    pub(crate) entries: &'a [Entry],
    /// The parts that stand behind the paradigm in the entry that took it in.
    pub(crate) rest: &'a [EntryPart],
    /// The number of the frame of that entry, counted from 1 at the bottom, or 0 for none.
    pub(crate) parent: usize,
    /// The bytes of the left word so far.
    pub(crate) left_len: usize,
    /// The bytes of the right word so far.
    pub(crate) right_len: usize,
    /// Whether an entry that is kept from left to right alone was used.
    pub(crate) lr: bool,
    /// Whether an entry that is kept from right to left alone was used.
    pub(crate) rl: bool,
}
