ghost use Rattle.std.specs.Prelude.{Bool};
ghost use Rattle.ap_fst.specs.Lists.{IsIn};
ghost use Rattle.ap_fst.specs.declared.compiled.Kind2.{Kind2};
ghost use Rattle.ap_fst.specs.declared.label.Edge.{Edge};
ghost use Rattle.ap_live.specs.Lexicon.{lexicon_of};
ghost use Rattle.ap_live.specs.Readable.{GivesReadable, IsCodedSide, WritesCoded};

use crate::lexicon_laws::sides_are_proper;
use ap_fst::{Compiled, Edge, Fst, Kind2};

fn side_is_coded(edge: &Edge)
    ensures { IsCodedSide edge.now.label.right }
{
    match &edge.label.right {
        None => {}
        Some(symbol) => symbol.coded(),
    }
}

fn sides_are_coded(edges: &[Edge])
    ensures { (e : Edge) → IsIn e edges.now → IsCodedSide e.label.right }
{
    for edge in edges {
        side_is_coded(edge);
    }
}

fn section_is_coded(section: &Fst)
    ensures { WritesCoded section.now }
{
    sides_are_coded(section.edges());
}

/// Says that the right words of a compiled dictionary can be written in a unit and are read again
/// as they are written: they are proper, and their letters and the names of their tags are of
/// characters. It looks at each label once, and changes nothing.
pub fn words_are_readable(compiled: &Compiled)
    ensures { (sensitive : Bool) → GivesReadable (lexicon_of compiled.now sensitive) }
{
    sides_are_proper(compiled);
    section_is_coded(compiled.section(Kind2::Standard));
    section_is_coded(compiled.section(Kind2::Inconditional));
    section_is_coded(compiled.section(Kind2::Postblank));
    section_is_coded(compiled.section(Kind2::Preblank));
}
