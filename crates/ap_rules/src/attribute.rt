//! Attributes.
ghost use Rattle.std.specs.Prelude.{◌≡◌, ◌<◌, ◌+◌, ◌^◌, length};
ghost use Rattle.std.specs.List.{filter};
ghost use Rattle.ap_rules.specs.Attributes.{begins_with_tag, place_of, IsStretched, IsMarkedWith, AreStretches};

use ap_symbol::{Sequence, Symbol, Word};
use std::marker::Model;

/// `attr-item`: tags in a row.
#[derive(Drop)]
pub struct AttrItem {
    pub tags: Word,
}

/// The items from a place up to, and without, another.
#[derive(Clone, Copy)]
struct Stretch {
    from: usize,
    to: usize,
}

/// `def-attr`: an attribute. Contracts see its items.
///
/// It keeps where the items stand that begin with a tag, so that few need be tried at a tag.
#[derive(Drop)]
pub struct DefAttr {
    items: Sequence<AttrItem>,
    stretches: [Stretch; 128],
}

impl Model for DefAttr {
    ghost use Rattle.std.specs.Prelude.{List};
    ghost use Rattle.ap_rules.specs.declared.attribute.AttrItem.{AttrItem};
    ghost use Rattle.ap_rules.specs.Attributes.{AreStretches};

    ghost Value = { List AttrItem };

    ghost view = { λ d. d.items };

    ghost invariant = { λ d. AreStretches d.items d.stretches };
}

/// The place of a tag's stretch, by the first byte of its name and the last one.
fn place_of(name: &[u8]) -> usize
    ensures value { result ≡ place_of name.now }
    ensures within { result < 128 }
{
    match (name.first(), name.last()) {
        (Some(first), Some(last)) => (usize::from(*first) * 8 + usize::from(*last)) % 128,
        _ => 0,
    }
}

/// The stretch that holds a place behind it as well.
fn stretched(stretch: Stretch, at: usize) -> Stretch
    requires { at + 1 < 2 ^ 64 }
    ensures { IsStretched at stretch result }
{
    Stretch {
        from: if stretch.to == 0 {
            at
        } else {
            stretch.from.min(at)
        },
        to: at + 1,
    }
}

/// Puts the place of an item into the stretch of the tag with which it begins.
#[tactic(auto, using(crate::proofs::Stretches::marked))]
fn mark(stretches: &mut [Stretch; 128], at: usize, item: &[Symbol])
    requires { at + 1 < 2 ^ 64 }
    ensures { IsMarkedWith at item.now stretches.old stretches.new }
{
    if let Some(Symbol::Tag(name)) = item.first() {
        let place = place_of(name.text().as_bytes());
        stretches[place] = stretched(stretches[place], at);
    }
}

/// The stretches of the tags with which these items begin.
#[tactic(auto, using(crate::proofs::Stretches::marked_none, crate::proofs::Stretches::marked_more, crate::proofs::Stretches::all_marked))]
fn stretches_of(items: &[AttrItem]) -> [Stretch; 128]
    ensures { AreStretches items.now result }
{
    let mut stretches = [Stretch { from: 0, to: 0 }; 128];
    for at in 0..items.len() {
        mark(&mut stretches, at, items[at].tags.symbols());
    }
    stretches
}

impl DefAttr {
    /// The attribute that has these items. It takes no memory.
    pub fn new(items: Sequence<AttrItem>) -> DefAttr
        ensures { result ≡ items }
    {
        let stretches = stretches_of(items.as_slice());
        DefAttr { items, stretches }
    }

    /// Its items in order.
    pub fn items(&self) -> &[AttrItem]
        ensures { result.now ≡ self.now }
    {
        self.items.as_slice()
    }

    /// Items in order, with all that begin with the tag of this name, and mostly with few others.
    pub fn near(&self, name: &[u8]) -> &[AttrItem]
        ensures { filter (begins_with_tag name.now) result.now
            ≡ filter (begins_with_tag name.now) self.now }
    {
        let items = self.items.as_slice();
        let stretch = self.stretches[place_of(name)];
        if stretch.from <= stretch.to && stretch.to <= items.len() {
            &items[stretch.from..stretch.to]
        } else {
            items
        }
    }
}
