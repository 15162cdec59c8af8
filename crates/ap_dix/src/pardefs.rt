ghost use Rattle.std.specs.Prelude.{◌≡◌, [], IfOk, OnOk, fold, map};
ghost use Rattle.ap_markup.specs.NameLists.{with_name};
ghost use Rattle.ap_markup.specs.View.{parts_of, tag_of};
ghost use Rattle.ap_dix.specs.Value.{pardef, pardefs, names_with};

use crate::dictionary::{Pardef, Pardefs};
use crate::entries::entries;
use ap_markup::{Names, Node, Part, is_named, name_of};
use ap_symbol::{Memory, Sequence, Text};
use std::alloc::Global;

fn pardef(alloc: Global, names: &Names, node: &Node) -> Result<Pardef, Memory>
    ensures { IfOk result (λ made. made
        ≡ pardef names.now (tag_of node.now) (parts_of node.now.parts.items)) }
{
    Ok(Pardef {
        name: Text::from_slice(alloc, name_of(node))?,
        entries: entries(alloc, names, &node.parts)?,
    })
}

/// The paradigms among the parts; their names are added to those above.
pub fn pardefs<'a>(
    alloc: Global,
    names: &mut Names<'a>,
    parts: &'a [Part],
) -> Result<Pardefs, Memory>
    ensures made { IfOk result (λ made. made ≡ pardefs names.old (parts_of parts.now)) }
    ensures named { OnOk result (names.new ≡ names_with names.old (parts_of parts.now)) }
{
    let mut made = Sequence::new(alloc);
    'parts: for part in parts {
        match part {
            Part::Run(_, _) => {}
            Part::Element(node) => {
                if is_named("pardef", node) {
                    made.push(pardef(alloc, names, node)?)?;
                    names.add(name_of(node))?;
                }
            }
        }
    }
    Ok(made)
}

/// The names of the paradigms.
pub fn names_of<'a>(alloc: Global, pardefs: &'a [Pardef]) -> Result<Names<'a>, Memory>
    ensures { IfOk result (λ made. made
        ≡ fold with_name [] (map (λ pardef. pardef.name) pardefs.now)) }
{
    let mut names = Names::new(alloc);
    'pardefs: for pardef in pardefs {
        names.add(pardef.name.as_slice())?;
    }
    Ok(names)
}
