use ap_symbol::Symbol;

/// An input that was taken; the flag says whether case counted.
#[derive(Debug, Drop)]
pub struct Taken {
    pub symbol: Symbol,
    pub sensitive: bool,
}
