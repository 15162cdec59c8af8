use crate::lent::Lent;
use crate::output::Output;
use ap_rules::{DefAttr, DefList, DefMacro, Form};
use ap_symbol::Word;

/// What stays as it is while a rule runs: what the rules define, and the variables as they were
/// before.
#[derive(Clone, Copy)]
pub(crate) struct World<'a> {
    pub(crate) form: Form,
    pub(crate) attributes: &'a [DefAttr],
    pub(crate) lists: &'a [DefList],
    pub(crate) macros: &'a [DefMacro],
    pub(crate) vars: &'a [Word],
}

/// What a rule changes. At the place of a variable stands its new value, where it has one; the
/// list of new values may be shorter than that of the variables.
#[derive(Drop)]
pub(crate) struct State<'a> {
    pub(crate) units: Vec<Lent<'a>>,
    pub(crate) fresh: Vec<Option<Word>>,
    pub(crate) pieces: Output<'a>,
}

/// What values are read from. At each position stands the number of a unit, where there is one.
#[derive(Clone, Copy)]
pub(crate) struct View<'a, 'u> {
    pub(crate) world: World<'a>,
    pub(crate) positions: &'a [Option<usize>],
    pub(crate) units: &'a [Lent<'u>],
    pub(crate) fresh: &'a [Option<Word>],
}
