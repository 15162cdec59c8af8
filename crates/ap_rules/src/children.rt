ghost use Rattle.std.specs.Prelude.{◌≡◌, ◌<◌, ◌≤◌, ◌+◌, length, IfSome};
ghost use Rattle.std.specs.Option.{option_map};
ghost use Rattle.ap_markup.specs.View.{tag_of};
ghost use Rattle.ap_rules.specs.Children.{children_in, children_of, begun_by, size, within, tag_within, count_named};

use ap_markup::{Node, Part, is_named};

/// The first element among the parts, and the parts behind it.
#[tactic(auto, using(crate::proofs::ChildSteps::child_steps))]
pub fn next_element<'a>(parts: &'a [Part]) -> Option<(&'a Node, &'a [Part])>
    ensures first { children_in parts.now ≡ begun_by result }
    ensures shorter { IfSome result (λ x. length x.1.now < length parts.now) }
{
    let mut rest = parts;
    'rest: while let Some((part, more)) = rest.split_first() {
        match part {
            Part::Element(node) => return Some((node, more)),
            Part::Run(_, _) => rest = more,
        }
    }
    None
}

/// The parts of the first element of this name.
#[tactic(auto, using(crate::proofs::ChildSteps::none_left))]
pub fn within<'a>(name: &str, parts: &'a [Part]) -> &'a [Part]
    ensures { children_in result.now ≡ within name.now (children_in parts.now) }
{
    let mut rest = parts;
    'rest: while let Some((node, more)) = next_element(rest) {
        if is_named(name, node) {
            return &node.parts;
        }
        rest = more;
    }
    &[]
}

/// The first element of this name.
pub fn find<'a>(name: &str, parts: &'a [Part]) -> Option<&'a Node>
    ensures { option_map (λ n. tag_of n.now) result ≡ tag_within name.now (children_in parts.now) }
{
    let mut rest = parts;
    'rest: while let Some((node, more)) = next_element(rest) {
        if is_named(name, node) {
            return Some(node);
        }
        rest = more;
    }
    None
}

/// How many elements of this name stand among the parts.
pub fn count_named(name: &str, parts: &[Part]) -> usize
    ensures { result ≡ count_named name.now (children_in parts.now) }
{
    let mut count = 0;
    let mut rest = parts;
    'rest: while let Some((node, more)) = next_element(rest) {
        if is_named(name, node) {
            count += 1;
        }
        rest = more;
    }
    count
}
