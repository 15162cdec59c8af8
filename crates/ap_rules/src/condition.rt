use crate::value::Value;

/// `equal`, `begins-with`, `ends-with` and `contains-substring`: two values are compared.
#[derive(Drop)]
pub struct Comparison {
    /// Whether all letters are put in lower case first.
    pub caseless: bool,
    pub first: Value,
    pub second: Value,
}

/// `in`, `begins-with-list` and `ends-with-list`: a value is compared with the items of a list.
#[derive(Drop)]
pub struct Membership {
    /// Whether all letters are put in lower case first.
    pub caseless: bool,
    pub value: Value,
    /// The list's number, counted from 0.
    pub list: usize,
}

/// `and`: each of the conditions holds.
#[cycle(condition)]
#[derive(Drop)]
pub struct And {
    pub conditions: Vec<Condition>,
}

/// `or`: one of the conditions holds.
#[cycle(condition)]
#[derive(Drop)]
pub struct Or {
    pub conditions: Vec<Condition>,
}

/// `not`: the condition doesn't hold.
#[cycle(condition)]
#[derive(Drop)]
pub struct Not {
    pub condition: Box<Condition>,
}

/// A condition of a choice.
#[cycle(condition)]
#[derive(Drop)]
pub enum Condition {
    And(And),
    Or(Or),
    Not(Not),
    Equal(Comparison),
    BeginsWith(Comparison),
    EndsWith(Comparison),
    ContainsSubstring(Comparison),
    In(Membership),
    BeginsWithList(Membership),
    EndsWithList(Membership),
}
