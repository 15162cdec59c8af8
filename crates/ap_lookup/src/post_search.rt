ghost use Rattle.std.specs.Prelude.{◌≡◌, ◌⊎◌, ◌+◌, ◌<◌, ◌≤◌, Bool, true, false, Ok, List, [], ◌∷◌, ◌++◌, None, length, take, drop, OnOk, OnErr, IfOk, IfSome};
ghost use Rattle.ap_live.specs.Greatest.{greatest};
ghost use Rattle.ap_live.specs.Lexicon.{lexicon_of};
ghost use Rattle.ap_live.specs.SectionLives.{AreLive};
ghost use Rattle.ap_lookup.specs.Matching.{is_match, fitting};
ghost use Rattle.ap_lookup.specs.PostGenerating.{is_alarm as alarm_test, symbol_of, symbols, begins_alarm as begins_test};

use crate::agreement::Agreement;
use crate::translation::{step_down, step_one};
use ap_fst::Compiled;
use ap_live::LiveSections;
use ap_stream::{Character, Item, Read};
use ap_symbol::{Memory, Symbol, is_white};
use std::alloc::Global;

/// What stands at an alarm: the greatest length that fits a left word, or 0, and how many items
/// must be seen together.
#[derive(Clone, Copy)]
pub(crate) struct Found {
    pub(crate) matched: usize,
    pub(crate) span: usize,
}

/// A search for a match at the front of the held items. It goes on from where it stands when
/// further items come, and where items are let go, with what is as true of those that are left.
#[derive(Drop)]
pub(crate) struct Search {
    pub(crate) lives: LiveSections,
    /// The symbols of the items that were looked at.
    pub(crate) seen: Vec<Symbol>,
    /// Of the fronts of one symbol or more, up to so many, it is known that none is a match.
    pub(crate) vain: usize,
    pub(crate) agreement: Agreement,
}

/// So many symbols in vain are worth comparing items for, to keep what is known of them.
const WORTH_KEEPING: usize = 16;

fn is_alarm(character: Character) -> bool
    ensures { result ≡ alarm_test character }
{
    !character.escaped && character.letter == '~'
}

/// The item as an input symbol.
pub(crate) fn symbol_of_item(item: &Item) -> Option<Symbol>
    ensures { result ≡ symbol_of item.now }
{
    match item {
        Item::Plain(character) => {
            if is_alarm(*character) {
                Some(Symbol::Alarm)
            } else if is_white(character.letter) {
                None
            } else {
                Some(Symbol::Letter(character.letter))
            }
        }
        Item::Blank(_) => Some(Symbol::Blank),
        Item::Unit(_) | Item::Chunk(_) => None,
    }
}

/// Whether the first item is an alarm.
pub(crate) fn begins_alarm(reads: &[Read]) -> bool
    ensures { result ≡ begins_test reads.now }
{
    match reads {
        [] => false,
        [first, ..] => match &first.item {
            Item::Plain(character) => is_alarm(*character),
            Item::Blank(_) | Item::Unit(_) | Item::Chunk(_) => false,
        },
    }
}

/// No end is known, and more items may come.
fn is_open(ends: bool, finished: bool) -> bool
    ensures unknown { result ≡ true → (ends ≡ false) × (finished ≡ false) }
    ensures known { result ≡ false → (ends ≡ true) ⊎ (finished ≡ true) }
{
    !ends && !finished
}

impl Search {
    ghost use Rattle.ap_fst.specs.Sections.{Parts};
    ghost use Rattle.ap_stream.specs.declared.item.Read.{Read};
    ghost use Rattle.ap_lookup.specs.PostSearching.{IsSearch, IsAgreement, AreVain, IsBack, IsEnd, IsFound};

    pub(crate) fn start(alloc: Global, compiled: &Compiled) -> Result<Search, Memory>
        ensures { IfOk result (λ search. (sensitive : Bool) →
            IsSearch compiled.now sensitive [] search) }
    {
        Ok(Search {
            lives: LiveSections::start(alloc, compiled)?,
            seen: Vec::new(alloc),
            vain: 0,
            agreement: Agreement::none(),
        })
    }

    /// Begins anew at the front of other items.
    pub(crate) fn restart(&mut self)
        ensures { (p : Parts) (sensitive : Bool) (old new : List Read) →
            IsSearch p sensitive old self.old → IsSearch p sensitive new self.new }
    {
        if self.seen.len() > 0 {
            self.lives.cut(0);
            self.seen.clear();
        }
        self.vain = 0;
        self.agreement = Agreement::none();
    }

    /// Keeps what is known of so many symbols, and no more.
    fn cut(&mut self, len: usize)
        ensures seen { self.new.seen.items ≡ take len self.old.seen.items }
        ensures lives { (p : Parts) (sensitive : Bool) →
            AreLive p sensitive self.old.seen.items self.old.lives →
            AreLive p sensitive self.new.seen.items self.new.lives }
        ensures vain { self.new.vain ≤ self.old.vain }
        ensures within { self.new.vain ≤ len }
    {
        self.lives.cut(len);
        self.seen.truncate(len);
        if self.vain > len {
            self.vain = len;
        }
    }

    /// Goes to the items behind so many, which are let go, with what is known of them too.
    pub(crate) fn pass(&mut self, compiled: &Compiled, reads: &[Read], count: usize)
        requires agreed { IsAgreement reads.now self.old.agreement }
        requires within { count ≤ length reads.now }
        ensures { (sensitive : Bool) → IsSearch compiled.now sensitive reads.now self.old →
            IsSearch compiled.now sensitive (drop count reads.now) self.new }
    {
        if self.vain < WORTH_KEEPING {
            self.restart();
            return;
        }
        let _ = compiled.alphabet();
        let agreement = self.agreement.extend(reads, count, self.vain);
        self.cut(agreement.count);
        self.agreement = agreement.left();
    }

    /// Keeps the symbol behind which the live sets stand. After a refusal they stand before it.
    fn keep(&mut self, symbol: Symbol) -> Result<(), Memory>
        ensures seen { OnOk result (self.new.seen.items ≡ self.old.seen.items ++ symbol ∷ []) }
        ensures lives { OnOk result (self.new.lives ≡ self.old.lives) }
        ensures same { OnErr result (self.new.seen.items ≡ self.old.seen.items) }
        ensures vain { self.new.vain ≡ self.old.vain }
        ensures agreement { self.new.agreement ≡ self.old.agreement }
        ensures back { OnErr result ((p : Parts) (sensitive : Bool) →
            AreLive p sensitive (self.old.seen.items ++ symbol ∷ []) self.old.lives →
            AreLive p sensitive self.old.seen.items self.new.lives) }
    {
        let at = self.seen.len();
        match self.seen.push(symbol) {
            Ok(()) => Ok(()),
            Err(_) => {
                self.lives.cut(at);
                Err(Memory)
            }
        }
    }

    /// Looks at one item more, and answers whether it too may be read with those before it.
    fn step(&mut self, compiled: &Compiled, sensitive: bool, reads: &[Read]) -> Result<bool, Memory>
        requires search { IsSearch compiled.now sensitive reads.now self.old }
        requires more { length self.old.seen.items < length reads.now }
        ensures search { IsSearch compiled.now sensitive reads.now self.new }
        ensures on { result ≡ Ok true → length self.new.seen.items
            ≡ length self.old.seen.items + 1 }
        ensures ends { result ≡ Ok false → (self.new.seen ≡ self.old.seen)
            × IsEnd (lexicon_of compiled.now sensitive) reads.now (length self.old.seen.items) }
    {
        let at = self.seen.len();
        match symbol_of_item(&reads[at].item) {
            None => Ok(false),
            Some(symbol) => {
                let fits = step_one(compiled, sensitive, &symbol, at, &mut self.lives)?;
                if !fits {
                    return Ok(false);
                }
                self.keep(symbol)?;
                Ok(true)
            }
        }
    }

    /// Looks at items while they may be read together, and answers whether it is known that one
    /// item more may not.
    fn step_on(
        &mut self,
        compiled: &Compiled,
        sensitive: bool,
        reads: &[Read],
    ) -> Result<bool, Memory>
        requires { IsSearch compiled.now sensitive reads.now self.old }
        ensures search { IsSearch compiled.now sensitive reads.now self.new }
        ensures ends { IfOk result
            (λ _. IsEnd (lexicon_of compiled.now sensitive) reads.now
            (length self.new.seen.items)) }
        ensures more { result ≡ Ok true → length self.new.seen.items < length reads.now }
        ensures all { result ≡ Ok false → length self.new.seen.items ≡ length reads.now }
    {
        while self.seen.len() < reads.len() {
            let fits = self.step(compiled, sensitive, reads)?;
            if !fits {
                return Ok(true);
            }
        }
        Ok(false)
    }

    /// Goes back to the longest match, as far as there may be one, and answers its length, or 0.
    fn step_back(&mut self, compiled: &Compiled, sensitive: bool) -> usize
        requires lives { AreLive compiled.now sensitive self.old.seen.items self.old.lives }
        requires vain { AreVain (lexicon_of compiled.now sensitive) self.old.seen.items
            self.old.vain }
        ensures value { result ≡ greatest
            (is_match (lexicon_of compiled.now sensitive) 0 self.old.seen.items)
            (length self.old.seen.items) }
        ensures within { result ≤ length self.old.seen.items }
        ensures lives { AreLive compiled.now sensitive self.new.seen.items self.new.lives }
        ensures back { IsBack self.old self.new result }
    {
        let from = self.seen.len();
        if from <= self.vain {
            return 0;
        }
        let matched = step_down(
            compiled,
            sensitive,
            self.seen.as_slice(),
            self.vain + 1,
            from,
            &mut self.lives,
        );
        if matched == 0 {
            self.seen.truncate(self.vain);
            self.vain = from;
            return 0;
        }
        self.seen.truncate(matched);
        matched
    }

    /// What stands at the front of the items, which is an alarm, and then the search stands at the
    /// match, where there is one; none where an item more is wanted.
    pub(crate) fn look(
        &mut self,
        compiled: &Compiled,
        sensitive: bool,
        reads: &[Read],
        finished: bool,
    ) -> Result<Option<Found>, Memory>
        requires { IsSearch compiled.now sensitive reads.now self.old }
        ensures search { IsSearch compiled.now sensitive reads.now self.new }
        ensures found { IfOk result
            (λ look. IfSome look (IsFound (lexicon_of compiled.now sensitive) reads.now finished)) }
        ensures at { IfOk result
            (λ look. IfSome look (λ found. 0 < found.matched → self.new.seen.items
            ≡ take found.matched (symbols reads.now))) }
        ensures waits { result ≡ Ok None →
            (finished ≡ false) × (fitting (lexicon_of compiled.now sensitive) (symbols reads.now)
            ≡ length reads.now) }
    {
        let _ = compiled.alphabet();
        let ends = self.step_on(compiled, sensitive, reads)?;
        if is_open(ends, finished) {
            return Ok(None);
        }
        let span = self.seen.len();
        let matched = self.step_back(compiled, sensitive);
        Ok(Some(Found { matched, span }))
    }
}
