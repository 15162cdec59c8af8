use ap_symbol::Words;

/// What is known of a place of a surface.
#[derive(Drop)]
pub(crate) struct Place {
    /// The fewest left parts that reach it from the start of the surface, where some do.
    pub(crate) fewest: Option<usize>,
    /// The words of the left parts that begin there: of those of one symbol, of two, and so on.
    pub(crate) lefts: Vec<Words>,
    /// The words of the right parts that are all that stands from there on.
    pub(crate) rights: Words,
}
