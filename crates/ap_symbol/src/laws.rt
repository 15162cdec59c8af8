ghost use Rattle.std.specs.Prelude.{◌≡◌, List};
ghost use Rattle.ap_symbol.specs.declared.symbol.Symbol.{Symbol};
ghost use Rattle.ap_symbol.specs.Rendering.{rendering};
ghost use Rattle.ap_symbol.specs.Words.{AreProper};

/// The law of rendering: words with equal bytes are equal. It is a statement alone and does
/// nothing.
pub fn one_rendering()
    ensures { (a b : List Symbol) → AreProper a → AreProper b → rendering a ≡ rendering b → a ≡ b }
{}
