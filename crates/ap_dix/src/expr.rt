use ap_symbol::{Sequence, Symbol};

/// The characters from the first to the last by their code points, white space left out.
#[derive(Clone, Copy, Debug, PartialEq, Eq)]
pub struct Range {
    pub first: char,
    pub last: char,
}

/// The ranges of a class, as they are written.
pub type Ranges = Sequence<Range>;

/// Expressions, in order.
pub type Exprs = Vec<Expr>;

/// An expression, as dictionaries hold it in the element `re`.
#[derive(Debug, Drop)]
pub enum Expr {
    /// A letter or a blank.
    One(Symbol),
    /// A character of one of the ranges.
    Class(Ranges),
    /// One after another.
    Sequence(Exprs),
    /// One of them.
    Either(Exprs),
    /// Any number of times.
    Star(Box<Expr>),
    /// At least once.
    Plus(Box<Expr>),
    /// At most once.
    Opt(Box<Expr>),
}
