ghost use Rattle.std.specs.Prelude.{◌≡◌, ◌<◌, ◌++◌, [], length, Bool, IfOk, OnOk, IfSome, None};
ghost use Rattle.ap_symbol.specs.Kinds.{first_word};
ghost use Rattle.ap_stream.specs.Spelling.{unit_bytes};
ghost use Rattle.ap_live.specs.Lexicon.{lexicon_of};
ghost use Rattle.ap_live.specs.SectionLives.{AreLive};
ghost use Rattle.ap_compound.specs.Splits.{compound_readings};
ghost use Rattle.ap_compound.specs.Works.{compound_unit};

use crate::reading::readings_from;
use crate::unknown::{is_unknown, may_be_unknown, write_copy, write_explained};
use ap_fst::Compiled;
use ap_live::LiveSections;
use ap_stream::{Names, Unit, UnitWriter};
use ap_symbol::{Bytes, Memory, Symbol, Word, Words};
use std::alloc::Global;
use std::marker::Model;
use std::rc::Rc;

/// Writes units: an unknown word with its readings as a compound, where it has any, and every other
/// unit as it is. Live sets are kept from word to word.
#[derive(Drop)]
pub(crate) struct Explainer {
    alloc: Global,
    compiled: Rc<Compiled>,
    sensitive: bool,
    /// Live sets that stand before the first symbol, if there are any.
    lives: Option<LiveSections>,
    /// The names of tags that were read last.
    names: Names,
}

impl Model for Explainer {
    ghost use Rattle.std.specs.Prelude.{[], IfSome};
    ghost use Rattle.ap_live.specs.SectionLives.{AreLive};
    ghost use Rattle.ap_compound.specs.Works.{Explaining};

    ghost Value = { Explaining };

    ghost view = { λ e. record { compiled = e.compiled.value; sensitive = e.sensitive } };

    ghost invariant = { λ e. IfSome e.lives (AreLive e.compiled.value e.sensitive []) };
}

/// Takes the live sets out, or begins with new ones.
fn take_lives(
    alloc: Global,
    compiled: &Compiled,
    kept: &mut Option<LiveSections>,
) -> Result<LiveSections, Memory>
    ensures lives { IfOk result (λ lives. (sensitive : Bool) →
        IfSome kept.old (AreLive compiled.now sensitive []) →
        AreLive compiled.now sensitive [] lives) }
    ensures none { kept.new ≡ None }
{
    match kept.take() {
        Some(lives) => Ok(lives),
        None => {
            let lives = LiveSections::start(alloc, compiled)?;
            Ok(lives)
        }
    }
}

/// The readings of a surface as a compound. The live sets are left as they were, unless no memory
/// is found.
fn readings_kept(
    alloc: Global,
    compiled: &Compiled,
    sensitive: bool,
    kept: &mut Option<LiveSections>,
    surface: &[Symbol],
) -> Result<Words, Memory>
    requires { IfSome kept.old (AreLive compiled.now sensitive []) }
    ensures value { IfOk result (λ words. words
        ≡ compound_readings (lexicon_of compiled.now sensitive) sensitive surface.now) }
    ensures kept { IfSome kept.new (AreLive compiled.now sensitive []) }
{
    let mut lives = take_lives(alloc, compiled, kept)?;
    let words = readings_from(alloc, compiled, sensitive, &mut lives, surface)?;
    *kept = Some(lives);
    Ok(words)
}

/// The surface of a unit of these words.
fn surface_of(words: &[Word]) -> &[Symbol]
    requires { 0 < length words.now }
    ensures { result.now ≡ first_word words.now }
{
    words[0].symbols()
}

impl Explainer {
    /// An explainer by this dictionary. It takes no memory.
    pub(crate) fn new(alloc: Global, compiled: Rc<Compiled>, sensitive: bool) -> Explainer
        ensures compiled { result.compiled ≡ compiled.value }
        ensures sensitive { result.sensitive ≡ sensitive }
    {
        Explainer {
            alloc,
            compiled,
            sensitive,
            lives: None,
            names: Names::new(alloc),
        }
    }

    /// The readings of a surface as a compound.
    fn readings(&mut self, surface: &[Symbol]) -> Result<Words, Memory>
        ensures value { IfOk result (λ words. words
            ≡ compound_readings (lexicon_of self.old.compiled self.old.sensitive)
            self.old.sensitive surface.now) }
        ensures same { self.new ≡ self.old }
    {
        readings_kept(
            self.alloc,
            self.compiled.as_ref(),
            self.sensitive,
            &mut self.lives,
            surface,
        )
    }

    /// The words of a unit.
    fn words(&mut self, unit: &Unit) -> Result<Words, Memory>
        ensures value { IfOk result (λ words. words ≡ unit.now) }
        ensures same { self.new ≡ self.old }
    {
        unit.words(&mut self.names)
    }

    /// Appends a unit as it is.
    fn copy(&mut self, unit: &Unit, into: &mut Bytes) -> Result<(), Memory>
        ensures value { OnOk result (into.new ≡ into.old ++ unit_bytes unit.now) }
        ensures same { self.new ≡ self.old }
    {
        write_copy(&mut self.names, unit, into)
    }
}

impl UnitWriter for Explainer {
    ghost given = { λ e words. compound_unit (lexicon_of e.compiled e.sensitive)
        e.sensitive words };

    fn write(&mut self, unit: &Unit, into: &mut Bytes) -> Result<bool, Memory> {
        if !may_be_unknown(unit) {
            self.copy(unit, into)?;
            return Ok(true);
        }
        let words = self.words(unit)?;
        if !is_unknown(words.as_slice()) {
            self.copy(unit, into)?;
            return Ok(true);
        }
        let readings = self.readings(surface_of(words.as_slice()))?;
        write_explained(words.as_slice(), readings.as_slice(), into)?;
        Ok(true)
    }
}
