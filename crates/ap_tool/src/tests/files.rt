//! The files that every row finds.
use crate::tests::rows::File;

/// The plainest dictionary.
const P: &str =
    "<dictionary>\n<alphabet>abcdefghijklmnopqrstuvwxyz</alphabet>\n<sdefs><sdef n=\"n\"/><sdef n=\"sg\"/><sdef n=\"vblex\"/><sdef n=\"past\"/><sdef n=\"pr\"/></sdefs>\n<section id=\"main\" type=\"standard\">\n<e><p><l>saw</l><r>saw<s n=\"n\"/><s n=\"sg\"/></r></p></e>\n<e><p><l>saw</l><r>see<s n=\"vblex\"/><s n=\"past\"/></r></p></e>\n<e><p><l>in</l><r>in<s n=\"pr\"/></r></p></e>\n</section>\n</dictionary>\n";

/// A dictionary with a paradigm, a word of two parts and an inconditional section.
pub(super) const M: &str =
    "<dictionary>\n<alphabet>abcdefghijklmnopqrstuvwxyz</alphabet>\n<sdefs><sdef n=\"n\"/><sdef n=\"sg\"/><sdef n=\"pl\"/><sdef n=\"vblex\"/>\n<sdef n=\"past\"/><sdef n=\"adv\"/><sdef n=\"sent\"/></sdefs>\n<pardefs><pardef n=\"house__n\">\n<e><p><l></l><r><s n=\"n\"/><s n=\"sg\"/></r></p></e>\n<e><p><l>s</l><r><s n=\"n\"/><s n=\"pl\"/></r></p></e>\n</pardef></pardefs>\n<section id=\"main\" type=\"standard\">\n<e lm=\"house\"><i>house</i><par n=\"house__n\"/></e>\n<e lm=\"saw\"><p><l>saw</l><r>saw<s n=\"n\"/><s n=\"sg\"/></r></p></e>\n<e lm=\"see\"><p><l>saw</l><r>see<s n=\"vblex\"/><s n=\"past\"/></r></p></e>\n<e lm=\"in front\"><p><l>in<b/>front</l><r>in<b/>front<s n=\"adv\"/></r></p></e>\n</section>\n<section id=\"final\" type=\"inconditional\">\n<e lm=\".\"><p><l>.</l><r>.<s n=\"sent\"/></r></p></e>\n</section>\n</dictionary>\n";

/// Entries kept in one direction, one of them in a paradigm.
const X: &str =
    "<dictionary><pardefs><pardef n=\"p\"><e r=\"LR\"><i>c</i></e><e><i>d</i></e></pardef></pardefs><section type=\"standard\"><e r=\"LR\"><i>a</i></e><e r=\"RL\"><i>b</i><par n=\"p\"/></e></section></dictionary>";

/// A section of type postblank.
const Q: &str =
    "<dictionary>\n<alphabet>abcdefghijklmnopqrstuvwxyz</alphabet>\n<sdefs><sdef n=\"det\"/></sdefs>\n<section id=\"main\" type=\"postblank\">\n<e><p><l>l'</l><r>el<s n=\"det\"/></r></p></e>\n</section>\n</dictionary>\n";

/// An entry with an empty left side.
pub(super) const E: &str =
    "<dictionary>\n<section id=\"m\" type=\"standard\">\n<e><i>a</i></e>\n<e><p><l></l><r>x</r></p></e>\n</section>\n</dictionary>\n";

/// Two words with other words, one of them empty.
const G: &str =
    "<dictionary>\n<section id=\"m\" type=\"standard\">\n<e><p><l>ab</l><r>c</r></p></e>\n<e><p><l>x</l><r></r></p></e>\n</section>\n</dictionary>\n";

/// Sections of type postblank and preblank.
const N: &str =
    "<dictionary>\n<alphabet>abcdefghijklmnopqrstuvwxyz</alphabet>\n<sdefs><sdef n=\"det\"/></sdefs>\n<section id=\"main\" type=\"postblank\"><e><p><l>l'</l><r>el<s n=\"det\"/></r></p></e></section>\n<section id=\"other\" type=\"preblank\"><e><p><l>'s</l><r>'s<s n=\"det\"/></r></p></e></section>\n</dictionary>\n";

/// Numbers, by an expression.
const R: &str =
    "<dictionary>\n<sdefs><sdef n=\"num\"/></sdefs>\n<section id=\"main\" type=\"standard\">\n<e><re>[0-9]+([.,][0-9]+)?</re><p><l></l><r><s n=\"num\"/></r></p></e>\n</section>\n</dictionary>\n";

/// Faulty ones: no expression, a tag that is not declared, a wrong end tag, a weight.
const B: &str =
    "<dictionary>\n<section id=\"m\" type=\"standard\">\n<e><re>[^a]</re></e>\n<e><p><l></l><r>x</r></p></e>\n</section>\n</dictionary>\n";

const F1: &str =
    "<dictionary>\n<sdefs><sdef n=\"n\"/></sdefs>\n<section id=\"m\" type=\"standard\">\n<e><p><l>a</l><r>a<s n=\"x\"/></r></p></e>\n<e w=\"1\"><i>b</i></e>\n</section>\n</dictionary>\n";

const F2: &str =
    "<dictionary>\n<section id=\"m\" type=\"standard\">\n<e><i>a</e>\n</section>\n</dictionary>\n";

const F3: &str =
    "<dictionary>\n<section id=\"m\" type=\"standard\">\n<e w=\"1\"><i>b</i></e>\n</section>\n</dictionary>\n";

/// A bilingual dictionary.
pub(super) const BI: &str =
    "<dictionary>\n<sdefs><sdef n=\"n\"/><sdef n=\"m\"/><sdef n=\"det\"/><sdef n=\"adj\"/>\n<sdef n=\"pr\"/><sdef n=\"sent\"/></sdefs>\n<section id=\"main\" type=\"standard\">\n<e><p><l>dog<s n=\"n\"/></l><r>perro<s n=\"n\"/><s n=\"m\"/></r></p></e>\n<e><p><l>cat<s n=\"n\"/></l><r>gato<s n=\"n\"/><s n=\"m\"/></r></p></e>\n<e><p><l>the<s n=\"det\"/></l><r>el<s n=\"det\"/></r></p></e>\n<e><p><l>black<s n=\"adj\"/></l><r>negro<s n=\"adj\"/></r></p></e>\n<e><p><l>of<s n=\"pr\"/></l><r>de<s n=\"pr\"/></r></p></e>\n<e><i>.<s n=\"sent\"/></i></e>\n</section>\n</dictionary>\n";

/// An analyser of the words that it translates.
const MONO: &str =
    "<dictionary>\n<alphabet>abcdefghijklmnopqrstuvwxyz</alphabet>\n<sdefs><sdef n=\"n\"/><sdef n=\"sg\"/><sdef n=\"pl\"/><sdef n=\"det\"/>\n<sdef n=\"adj\"/><sdef n=\"pr\"/><sdef n=\"sent\"/></sdefs>\n<pardefs><pardef n=\"dog__n\">\n<e><p><l></l><r><s n=\"n\"/><s n=\"sg\"/></r></p></e>\n<e><p><l>s</l><r><s n=\"n\"/><s n=\"pl\"/></r></p></e>\n</pardef></pardefs>\n<section id=\"main\" type=\"standard\">\n<e><i>dog</i><par n=\"dog__n\"/></e>\n<e><i>cat</i><par n=\"dog__n\"/></e>\n<e><p><l>the</l><r>the<s n=\"det\"/></r></p></e>\n<e><p><l>black</l><r>black<s n=\"adj\"/></r></p></e>\n<e><p><l>of</l><r>of<s n=\"pr\"/></r></p></e>\n</section>\n<section id=\"final\" type=\"inconditional\">\n<e><p><l>.</l><r>.<s n=\"sent\"/></r></p></e>\n</section>\n</dictionary>\n";

/// Two words for one.
const V: &str =
    "<dictionary>\n<sdefs><sdef n=\"n\"/></sdefs>\n<section id=\"main\" type=\"standard\">\n<e><p><l>dog<s n=\"n\"/></l><r>perro<s n=\"n\"/></r></p></e>\n<e><p><l>dog<s n=\"n\"/></l><r>can<s n=\"n\"/></r></p></e>\n</section>\n</dictionary>\n";

/// A dictionary of generation.
const GEN: &str =
    "<dictionary>\n<sdefs><sdef n=\"n\"/><sdef n=\"m\"/><sdef n=\"sg\"/><sdef n=\"pl\"/><sdef n=\"det\"/>\n<sdef n=\"adj\"/><sdef n=\"pr\"/><sdef n=\"sent\"/></sdefs>\n<pardefs>\n<pardef n=\"num\"><e><p><l></l><r><s n=\"sg\"/></r></p></e>\n<e><p><l>s</l><r><s n=\"pl\"/></r></p></e></pardef>\n</pardefs>\n<section id=\"main\" type=\"standard\">\n<e><p><l>perro</l><r>perro<s n=\"n\"/><s n=\"m\"/></r></p><par n=\"num\"/></e>\n<e><p><l>gato</l><r>gato<s n=\"n\"/><s n=\"m\"/></r></p><par n=\"num\"/></e>\n<e><p><l>negro</l><r>negro<s n=\"adj\"/><s n=\"m\"/></r></p><par n=\"num\"/></e>\n<e><p><l>el</l><r>el<s n=\"det\"/></r></p></e>\n<e><p><l><a/>de</l><r>de<s n=\"pr\"/></r></p></e>\n<e><p><l>.</l><r>.<s n=\"sent\"/></r></p></e>\n</section>\n</dictionary>\n";

/// A dictionary of post-generation.
const POST: &str =
    "<dictionary>\n<section id=\"main\" type=\"standard\">\n<e><p><l><a/>de<b/>el</l><r>del</r></p></e>\n</section>\n</dictionary>\n";

/// Rule files: an undefined name, no rules at all, of both forms, and one fault each.
const FR: &str =
    "<interchunk>\n<section-rules><rule>\n<pattern><pattern-item n=\"nope\"/></pattern>\n<action></action>\n</rule></section-rules>\n</interchunk>\n";

const T2: &str = "<interchunk></interchunk>";

const T3: &str = "<postchunk></postchunk>";

const G1: &str =
    "<interchunk><section-rules><rule><pattern></pattern><action></action></rule></section-rules></interchunk>";

const G2: &str =
    "<transfer default=\"lu\"><section-def-attrs><def-attr n=\"lem\"></def-attr></section-def-attrs></transfer>";

const G3: &str = "<postchunk><section-rules><rule weight=\"2\"></rule></section-rules></postchunk>";

/// Forbidden pairs of tags: one, two, one of two letters, and a line that is no pair.
const K1: &str = "prn n\n";

const K2: &str = "prn n\nprn vblex\n";

const K3: &str = "a c";

const K4: &str = "# x\na  b\n";

/// Rules of transfer: an adjective before a noun, a variable that doubles, and a macro.
const T1: &str =
    "<transfer default=\"chunk\">\n<section-def-cats><def-cat n=\"adj\"><cat-item tags=\"adj\"/></def-cat>\n<def-cat n=\"nom\"><cat-item tags=\"n.*\"/></def-cat></section-def-cats>\n<section-def-attrs>\n<def-attr n=\"gen\"><attr-item tags=\"m\"/><attr-item tags=\"f\"/></def-attr>\n<def-attr n=\"num\"><attr-item tags=\"sg\"/><attr-item tags=\"pl\"/></def-attr>\n</section-def-attrs>\n<section-rules><rule>\n<pattern><pattern-item n=\"adj\"/><pattern-item n=\"nom\"/></pattern>\n<action><out><chunk name=\"nom_adj\">\n<tags><tag><lit-tag v=\"SN\"/></tag>\n<tag><clip pos=\"2\" side=\"tl\" part=\"gen\"/></tag>\n<tag><clip pos=\"2\" side=\"tl\" part=\"num\"/></tag></tags>\n<lu><clip pos=\"2\" side=\"tl\" part=\"lem\"/><lit-tag v=\"n\"/>\n<clip pos=\"2\" side=\"tl\" part=\"gen\" link-to=\"2\"/>\n<clip pos=\"2\" side=\"tl\" part=\"num\" link-to=\"3\"/></lu>\n<b pos=\"1\"/>\n<lu><clip pos=\"1\" side=\"tl\" part=\"lem\"/><lit-tag v=\"adj\"/>\n<clip pos=\"2\" side=\"tl\" part=\"gen\" link-to=\"2\"/>\n<clip pos=\"2\" side=\"tl\" part=\"num\" link-to=\"3\"/></lu>\n</chunk></out></action>\n</rule></section-rules>\n</transfer>\n";

const TD: &str =
    "<transfer default=\"lu\">\n<section-def-cats><def-cat n=\"adj\"><cat-item tags=\"adj\"/></def-cat></section-def-cats>\n<section-def-vars><def-var n=\"v\" v=\"a\"/></section-def-vars>\n<section-rules><rule>\n<pattern><pattern-item n=\"adj\"/></pattern>\n<action><let><var n=\"v\"/><concat><var n=\"v\"/><var n=\"v\"/></concat></let>\n<out><lu><clip pos=\"1\" side=\"tl\" part=\"whole\"/></lu></out></action>\n</rule></section-rules>\n</transfer>\n";

const TL: &str =
    "<transfer default=\"lu\">\n<section-def-cats><def-cat n=\"nom\"><cat-item tags=\"n.*\"/></def-cat></section-def-cats>\n<section-def-attrs><def-attr n=\"num\"><attr-item tags=\"sg\"/><attr-item tags=\"pl\"/></def-attr></section-def-attrs>\n<section-def-macros><def-macro n=\"many\" npar=\"1\">\n<let><clip pos=\"1\" side=\"tl\" part=\"num\"/><lit-tag v=\"pl\"/></let>\n</def-macro></section-def-macros>\n<section-rules><rule>\n<pattern><pattern-item n=\"nom\"/></pattern>\n<action><call-macro n=\"many\"><with-param pos=\"1\"/></call-macro>\n<out><lu><get-case-from pos=\"1\"><clip pos=\"1\" side=\"tl\" part=\"lem\"/></get-case-from>\n<clip pos=\"1\" side=\"tl\" part=\"tags\"/></lu></out></action>\n</rule></section-rules>\n</transfer>\n";

/// Rules of interchunk and of postchunk, each of which lets two change places.
const T2S: &str =
    "<interchunk>\n<section-def-cats><def-cat n=\"sn\"><cat-item tags=\"SN.*\"/></def-cat>\n<def-cat n=\"sv\"><cat-item tags=\"SV\"/></def-cat></section-def-cats>\n<section-rules><rule>\n<pattern><pattern-item n=\"sn\"/><pattern-item n=\"sv\"/></pattern>\n<action><out><chunk><clip pos=\"2\" part=\"whole\"/></chunk><b pos=\"1\"/>\n<chunk><clip pos=\"1\" part=\"whole\"/></chunk></out></action>\n</rule></section-rules>\n</interchunk>\n";

const T3S: &str =
    "<postchunk>\n<section-def-cats><def-cat n=\"swap\"><cat-item name=\"swap\"/></def-cat></section-def-cats>\n<section-rules><rule>\n<pattern><pattern-item n=\"swap\"/></pattern>\n<action><out><lu><clip pos=\"2\" part=\"whole\"/></lu><b pos=\"1\"/>\n<lu><clip pos=\"1\" part=\"whole\"/></lu></out></action>\n</rule></section-rules>\n</postchunk>\n";

/// A compiled file: one word, with its tag.
const C: &str =
    "LTC1\nalphabet 65 66 97 98\nsection standard 3 2 1\n0 L97 L97 1\n1 - Tn 2\n2\nsection inconditional 1 0 0\nsection postblank 1 0 0\nsection preblank 1 0 0\nend\n";

/// Faulty ones: it breaks off, it has an empty cycle, it is of another form.
const C1: &str = "LTC1\nalphabet\n";

const C2: &str =
    "LTC1\nalphabet\nsection standard 2 2 1\n0 L97 L97 1\n1 - Tn 1\n1\nsection inconditional 1 0 0\nsection postblank 1 0 0\nsection preblank 1 0 0\nend\n";

const C3: &str = "LTC9\n";

/// The files, each with its name.
pub(super) const FILES: &[File] = &[
    ("P", P),
    ("M", M),
    ("X", X),
    ("Q", Q),
    ("E", E),
    ("G", G),
    ("F1", F1),
    ("F2", F2),
    ("F3", F3),
    ("N", N),
    ("R", R),
    ("BI", BI),
    ("MONO", MONO),
    ("V", V),
    ("GEN", GEN),
    ("POST", POST),
    ("FR", FR),
    ("T2", T2),
    ("T3", T3),
    ("T2S", T2S),
    ("T3S", T3S),
    ("G1", G1),
    ("G2", G2),
    ("G3", G3),
    ("K1", K1),
    ("K2", K2),
    ("K3", K3),
    ("K4", K4),
    ("T1", T1),
    ("TD", TD),
    ("TL", TL),
    ("B", B),
    ("C", C),
    ("C1", C1),
    ("C2", C2),
    ("C3", C3),
];
