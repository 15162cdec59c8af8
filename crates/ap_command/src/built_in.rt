//! The seven files that `work` runs over, which are built in.
ghost use Rattle.std.specs.Prelude.{◌≡◌, Some, option_map};
ghost use Rattle.ap_command.specs.BuiltInTexts.{bilingual_text, gen_text, mono_text, post_text, t1x_text, t2x_text, t3x_text};
ghost use Rattle.ap_command.specs.Working.{text_named};

use ap_outside::{Files, LoadRefusal, StoreRefusal};
use std::alloc::Global;

/// An analyser of the words of the sentences.
pub(crate) const MONO: &str =
    "<dictionary>\n<alphabet>abcdefghijklmnopqrstuvwxyz</alphabet>\n<sdefs><sdef n=\"n\"/><sdef n=\"sg\"/><sdef n=\"pl\"/><sdef n=\"det\"/>\n<sdef n=\"adj\"/><sdef n=\"pr\"/><sdef n=\"sent\"/></sdefs>\n<pardefs><pardef n=\"dog__n\">\n<e><p><l></l><r><s n=\"n\"/><s n=\"sg\"/></r></p></e>\n<e><p><l>s</l><r><s n=\"n\"/><s n=\"pl\"/></r></p></e>\n</pardef></pardefs>\n<section id=\"main\" type=\"standard\">\n<e><i>dog</i><par n=\"dog__n\"/></e>\n<e><i>cat</i><par n=\"dog__n\"/></e>\n<e><p><l>the</l><r>the<s n=\"det\"/></r></p></e>\n<e><p><l>black</l><r>black<s n=\"adj\"/></r></p></e>\n<e><p><l>of</l><r>of<s n=\"pr\"/></r></p></e>\n</section>\n<section id=\"final\" type=\"inconditional\">\n<e><p><l>.</l><r>.<s n=\"sent\"/></r></p></e>\n</section>\n</dictionary>\n";

/// A bilingual dictionary of them.
pub(crate) const BI: &str =
    "<dictionary>\n<sdefs><sdef n=\"n\"/><sdef n=\"m\"/><sdef n=\"det\"/><sdef n=\"adj\"/>\n<sdef n=\"pr\"/><sdef n=\"sent\"/></sdefs>\n<section id=\"main\" type=\"standard\">\n<e><p><l>dog<s n=\"n\"/></l><r>perro<s n=\"n\"/><s n=\"m\"/></r></p></e>\n<e><p><l>cat<s n=\"n\"/></l><r>gato<s n=\"n\"/><s n=\"m\"/></r></p></e>\n<e><p><l>the<s n=\"det\"/></l><r>el<s n=\"det\"/></r></p></e>\n<e><p><l>black<s n=\"adj\"/></l><r>negro<s n=\"adj\"/></r></p></e>\n<e><p><l>of<s n=\"pr\"/></l><r>de<s n=\"pr\"/></r></p></e>\n<e><i>.<s n=\"sent\"/></i></e>\n</section>\n</dictionary>\n";

/// Rules of transfer: an adjective before a noun.
pub(crate) const T1: &str =
    "<transfer default=\"chunk\">\n<section-def-cats><def-cat n=\"adj\"><cat-item tags=\"adj\"/></def-cat>\n<def-cat n=\"nom\"><cat-item tags=\"n.*\"/></def-cat></section-def-cats>\n<section-def-attrs>\n<def-attr n=\"gen\"><attr-item tags=\"m\"/><attr-item tags=\"f\"/></def-attr>\n<def-attr n=\"num\"><attr-item tags=\"sg\"/><attr-item tags=\"pl\"/></def-attr>\n</section-def-attrs>\n<section-rules><rule>\n<pattern><pattern-item n=\"adj\"/><pattern-item n=\"nom\"/></pattern>\n<action><out><chunk name=\"nom_adj\">\n<tags><tag><lit-tag v=\"SN\"/></tag>\n<tag><clip pos=\"2\" side=\"tl\" part=\"gen\"/></tag>\n<tag><clip pos=\"2\" side=\"tl\" part=\"num\"/></tag></tags>\n<lu><clip pos=\"2\" side=\"tl\" part=\"lem\"/><lit-tag v=\"n\"/>\n<clip pos=\"2\" side=\"tl\" part=\"gen\" link-to=\"2\"/>\n<clip pos=\"2\" side=\"tl\" part=\"num\" link-to=\"3\"/></lu>\n<b pos=\"1\"/>\n<lu><clip pos=\"1\" side=\"tl\" part=\"lem\"/><lit-tag v=\"adj\"/>\n<clip pos=\"2\" side=\"tl\" part=\"gen\" link-to=\"2\"/>\n<clip pos=\"2\" side=\"tl\" part=\"num\" link-to=\"3\"/></lu>\n</chunk></out></action>\n</rule></section-rules>\n</transfer>\n";

/// No rules of interchunk.
pub(crate) const T2: &str = "<interchunk></interchunk>";

/// No rules of postchunk.
pub(crate) const T3: &str = "<postchunk></postchunk>";

/// A dictionary of generation.
pub(crate) const GEN: &str =
    "<dictionary>\n<sdefs><sdef n=\"n\"/><sdef n=\"m\"/><sdef n=\"sg\"/><sdef n=\"pl\"/><sdef n=\"det\"/>\n<sdef n=\"adj\"/><sdef n=\"pr\"/><sdef n=\"sent\"/></sdefs>\n<pardefs>\n<pardef n=\"num\"><e><p><l></l><r><s n=\"sg\"/></r></p></e>\n<e><p><l>s</l><r><s n=\"pl\"/></r></p></e></pardef>\n</pardefs>\n<section id=\"main\" type=\"standard\">\n<e><p><l>perro</l><r>perro<s n=\"n\"/><s n=\"m\"/></r></p><par n=\"num\"/></e>\n<e><p><l>gato</l><r>gato<s n=\"n\"/><s n=\"m\"/></r></p><par n=\"num\"/></e>\n<e><p><l>negro</l><r>negro<s n=\"adj\"/><s n=\"m\"/></r></p><par n=\"num\"/></e>\n<e><p><l>el</l><r>el<s n=\"det\"/></r></p></e>\n<e><p><l><a/>de</l><r>de<s n=\"pr\"/></r></p></e>\n<e><p><l>.</l><r>.<s n=\"sent\"/></r></p></e>\n</section>\n</dictionary>\n";

/// A dictionary of post-generation.
pub(crate) const POST: &str =
    "<dictionary>\n<section id=\"main\" type=\"standard\">\n<e><p><l><a/>de<b/>el</l><r>del</r></p></e>\n</section>\n</dictionary>\n";

#[tactic(auto, unfolding(crate::specs::BuiltInTexts::mono_text))]
fn mono() -> &'static str
    ensures { result.now ≡ mono_text }
{
    MONO
}

#[tactic(auto, unfolding(crate::specs::BuiltInTexts::bilingual_text))]
fn bilingual() -> &'static str
    ensures { result.now ≡ bilingual_text }
{
    BI
}

#[tactic(auto, unfolding(crate::specs::BuiltInTexts::t1x_text))]
fn t1x() -> &'static str
    ensures { result.now ≡ t1x_text }
{
    T1
}

#[tactic(auto, unfolding(crate::specs::BuiltInTexts::t2x_text))]
fn t2x() -> &'static str
    ensures { result.now ≡ t2x_text }
{
    T2
}

#[tactic(auto, unfolding(crate::specs::BuiltInTexts::t3x_text))]
fn t3x() -> &'static str
    ensures { result.now ≡ t3x_text }
{
    T3
}

#[tactic(auto, unfolding(crate::specs::BuiltInTexts::gen_text))]
fn generator() -> &'static str
    ensures { result.now ≡ gen_text }
{
    GEN
}

#[tactic(auto, unfolding(crate::specs::BuiltInTexts::post_text))]
fn post() -> &'static str
    ensures { result.now ≡ post_text }
{
    POST
}

/// The text of the built-in file of that name; None where none has it.
fn text_named(name: &str) -> Option<&'static str>
    ensures { option_map (λ text. text.now) result ≡ text_named name.now }
{
    match name {
        "W.mono" => Some(mono()),
        "W.bi" => Some(bilingual()),
        "W.t1x" => Some(t1x()),
        "W.t2x" => Some(t2x()),
        "W.t3x" => Some(t3x()),
        "W.gen" => Some(generator()),
        "W.post" => Some(post()),
        _ => None,
    }
}

/// The built-in files. No load of them fails, and nothing is stored: another name and a store are
/// answered as want of memory.
#[derive(Debug, Drop)]
pub(crate) struct BuiltIn {}

impl Files for BuiltIn {
    ghost contents = { λ _. Some text_named };

    ghost load_faults = { λ _. λ _. 0 };

    ghost store_faults = { λ _. 0 };

    fn load(&mut self, alloc: Global, name: &str, most: u64) -> Result<Vec<u8>, LoadRefusal> {
        let Some(text) = text_named(name) else {
            return Err(LoadRefusal::Memory);
        };
        let bytes = text.as_bytes();
        if bytes.len() as u64 > most {
            return Err(LoadRefusal::TooLong);
        }
        match Vec::from_slice(alloc, bytes) {
            Ok(copy) => Ok(copy),
            Err(_) => Err(LoadRefusal::Memory),
        }
    }

    fn store(&mut self, _name: &str, _bytes: &[u8]) -> Result<(), StoreRefusal> {
        Err(StoreRefusal::Memory)
    }
}
