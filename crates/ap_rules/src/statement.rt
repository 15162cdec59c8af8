use crate::condition::Condition;
use crate::piece::Piece;
use crate::value::{Clip, Value, Var};

/// What a statement may set: a part of a unit, or a variable.
#[derive(Drop)]
pub enum Place {
    Clip(Clip),
    Var(Var),
}

/// `let`: a place is set to a value.
#[derive(Drop)]
pub struct Let {
    pub place: Place,
    pub value: Value,
}

/// `modify-case`: a place is put in the case of a value.
#[derive(Drop)]
pub struct ModifyCase {
    pub place: Place,
    pub value: Value,
}

/// `append`: values are added to a variable.
#[derive(Drop)]
pub struct Append {
    /// The variable's number, counted from 0.
    pub n: usize,
    pub values: Vec<Value>,
}

/// `out`: pieces are added to the output.
#[derive(Drop)]
pub struct Out {
    pub pieces: Vec<Piece>,
}

/// `call-macro`: a macro is run on the units at these positions.
#[derive(Drop)]
pub struct CallMacro {
    /// The macro's number, counted from 0.
    pub n: usize,
    /// The positions of each `with-param`.
    pub params: Vec<usize>,
}

/// `when`: statements that are run where a condition holds.
#[cycle(statement)]
#[derive(Drop)]
pub struct When {
    pub test: Condition,
    pub statements: Vec<Statement>,
}

/// `choose`: the first choice whose condition holds is run, else `otherwise`, which is empty where
/// it isn't there.
#[cycle(statement)]
#[derive(Drop)]
pub struct Choose {
    pub whens: Vec<When>,
    pub otherwise: Vec<Statement>,
}

/// A statement of a rule or of a macro.
#[cycle(statement)]
#[derive(Drop)]
pub enum Statement {
    Choose(Choose),
    Let(Let),
    Append(Append),
    Out(Out),
    ModifyCase(ModifyCase),
    CallMacro(CallMacro),
}
