/// A rule that was chosen: its number, counted from 0, and how many units its pattern takes.
#[derive(Clone, Copy, Debug, PartialEq, Eq)]
pub struct Choice {
    pub rule: usize,
    pub size: usize,
}
