ghost use Rattle.std.specs.Prelude.{◌≡◌};
ghost use Rattle.std.specs.Option.{option_copied};
ghost use Rattle.ap_markup.specs.View.{parts_of, tag_of};
ghost use Rattle.ap_markup.specs.Views.{pairs};
ghost use Rattle.ap_markup.specs.Said.{value_of, name_of, is_named, child};

use crate::attribute::Attribute;
use crate::node::{Node, Part};
use crate::texts::is_text;

/// The value of the first attribute of this name.
pub fn value_of<'a>(name: &str, given: &'a [Attribute]) -> Option<&'a [char]>
    ensures { option_copied result ≡ value_of name.now (pairs given.now) }
{
    for a in given {
        if is_text(name, a.name.as_slice()) {
            return Some(a.value.as_slice());
        }
    }
    None
}

/// The name that the attribute `n` gives.
pub fn name_of(node: &Node) -> &[char]
    ensures { result.now ≡ name_of (pairs node.now.attributes) }
{
    match value_of("n", node.attributes.as_slice()) {
        Some(name) => name,
        None => &[],
    }
}

/// Whether the element has this name.
pub fn is_named(name: &str, node: &Node) -> bool
    ensures { result ≡ is_named name.now (tag_of node.now) }
{
    is_text(name, node.name.as_slice())
}

/// The parts of the first element of this name.
pub fn child<'a>(name: &str, parts: &'a [Part]) -> &'a [Part]
    ensures { parts_of result.now ≡ child name.now (parts_of parts.now) }
{
    'parts: for part in parts {
        match part {
            Part::Run(_, _) => {}
            Part::Element(node) => {
                if is_named(name, node) {
                    return &node.parts;
                }
            }
        }
    }
    &[]
}
