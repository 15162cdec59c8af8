ghost use Rattle.std.specs.Prelude.{◌≡◌, ◌++◌, OnOk, OnErr, encode_utf8};
ghost use Rattle.ap_format.specs.declared.blanks.Spot.TheVariants.{Outside};
ghost use Rattle.ap_format.specs.Reformatted.{bare_blank, bare_item};

use crate::blanks::{has_bracket, push_bare};
use ap_stream::Item;
use ap_symbol::{Bytes, Memory};

fn write_letter(letter: char, into: &mut Bytes) -> Result<(), Memory>
    ensures ok { OnOk result (into.new ≡ into.old ++ encode_utf8 letter) }
    ensures err { OnErr result (into.new ≡ into.old) }
{
    let mut buffer = [0; 4];
    into.extend(letter.encode_utf8(&mut buffer).as_bytes())
}

/// Appends what a blank gives. `text` is room. After a refusal nothing is appended.
pub(crate) fn write_blank(bytes: &[u8], text: &mut Vec<u8>, into: &mut Bytes) -> Result<(), Memory>
    ensures ok { OnOk result (into.new ≡ into.old ++ bare_blank Outside bytes.now) }
    ensures err { OnErr result (into.new ≡ into.old) }
{
    if !has_bracket(bytes) {
        return into.extend(bytes);
    }
    text.clear();
    push_bare(bytes, text)?;
    into.extend(text.as_slice())
}

/// Appends what an item gives. After a refusal nothing is appended.
pub(crate) fn write_bare(item: &Item, text: &mut Vec<u8>, into: &mut Bytes) -> Result<(), Memory>
    ensures ok { OnOk result (into.new ≡ into.old ++ bare_item item.now) }
    ensures err { OnErr result (into.new ≡ into.old) }
{
    match item {
        Item::Plain(character) => write_letter(character.letter, into),
        Item::Blank(blank) => write_blank(blank.as_slice(), text, into),
        Item::Unit(_) | Item::Chunk(_) => Ok(()),
    }
}
