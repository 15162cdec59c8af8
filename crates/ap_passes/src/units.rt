ghost use Rattle.std.specs.Prelude.{◌≡◌, ◌++◌, ◌∷◌, [], List, true, false, OnOk};
ghost use Rattle.std.specs.List.{list_any};
ghost use Rattle.ap_symbol.specs.Rendering.{rendering};
ghost use Rattle.ap_symbol.specs.declared.symbol.Symbol.{Symbol};
ghost use Rattle.ap_passes.specs.Marks.{is_joint_byte};
ghost use Rattle.ap_passes.specs.Passes.{one, filled_one, spaced};
ghost use Rattle.ap_passes.specs.Splitting.{split};

use ap_symbol::{Bytes, Memory, Word};

/// Appends the bytes of the unit of one word.
pub(crate) fn write_one(word: &Word, into: &mut Bytes) -> Result<(), Memory>
    ensures { OnOk result (into.new ≡ into.old ++ one word.now) }
{
    into.extend(b"^")?;
    into.extend(word.rendered())?;
    into.extend(b"$")
}

/// Appends the unit of the word with these bytes.
fn write_bytes(bytes: &[u8], into: &mut Bytes) -> Result<(), Memory>
    ensures { (word : List Symbol) → bytes.now ≡ rendering word →
        OnOk result (into.new ≡ into.old ++ one word) }
{
    into.extend(b"^")?;
    into.extend(bytes)?;
    into.extend(b"$")
}

/// Appends the unit of the word with these bytes, if it isn't empty.
pub(crate) fn write_filled(bytes: &[u8], into: &mut Bytes) -> Result<(), Memory>
    ensures { (word : List Symbol) → bytes.now ≡ rendering word →
        OnOk result (into.new ≡ into.old ++ filled_one word) }
{
    if bytes.is_empty() {
        return Ok(());
    }
    write_bytes(bytes, into)
}

/// Whether a byte is `+` or `#`.
fn has_joint(bytes: &[u8]) -> bool
    ensures { result ≡ list_any is_joint_byte bytes.now }
{
    bytes.iter().any(|byte| *byte == b'+' || *byte == b'#')
}

/// Whether the word with these bytes surely stays as it is: it has a byte, and neither `+` nor `#`.
fn is_plain(bytes: &[u8]) -> bool
    ensures { (word : List Symbol) → bytes.now ≡ rendering word → result ≡ true →
        split word ≡ word ∷ [] }
{
    !bytes.is_empty() && !has_joint(bytes)
}

/// Appends the unit of the word with these bytes and answers true, where it surely isn't taken
/// apart.
pub(crate) fn write_whole(bytes: &[u8], into: &mut Bytes) -> Result<bool, Memory>
    ensures whole { (word : List Symbol) → bytes.now ≡ rendering word → result ≡ Ok true →
        into.new ≡ into.old ++ spaced (split word) }
    ensures none { result ≡ Ok false → into.new ≡ into.old }
{
    if !is_plain(bytes) {
        return Ok(false);
    }
    write_bytes(bytes, into)?;
    Ok(true)
}
