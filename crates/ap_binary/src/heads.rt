/// What the first line of a section says: how many states, edges and final states it has. None
/// stands for a number over 2 ^ 64 - 1.
#[derive(Clone, Copy, Debug, PartialEq, Eq)]
pub(crate) struct Head {
    pub states: Option<u64>,
    pub edges: Option<u64>,
    pub finals: Option<u64>,
}

/// How many states, edges and final states a section has.
#[derive(Clone, Copy, Debug, PartialEq, Eq)]
pub(crate) struct Counts {
    pub states: u64,
    pub edges: u64,
    pub finals: u64,
}
