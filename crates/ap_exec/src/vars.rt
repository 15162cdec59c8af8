ghost use Rattle.std.specs.Prelude.{◌≡◌, IfOk, length, map, slice_get};
ghost use Rattle.std.specs.Option.{option_copied};
ghost use Rattle.ap_exec.specs.Starting.{start_of, with_new};
ghost use Rattle.ap_exec.specs.States.{overlaid};

use crate::spare::Spare;
use ap_rules::Rules;
use ap_symbol::{Memory, Word};
use std::alloc::Global;
use std::marker::Model;
use std::mem;

/// What the variables of rules hold, each by its number, counted from 0. It is seen as the list of
/// their words.
#[derive(Debug, Drop)]
pub struct Vars {
    words: Vec<Word>,
}

impl Model for Vars {
    ghost use Rattle.std.specs.Prelude.{List};
    ghost use Rattle.ap_symbol.specs.declared.symbol.Symbol.{Symbol};

    ghost Value = { List (List Symbol) };

    ghost view = { λ v. v.words.items };
}

/// Puts in a new value, where there is one. The old one is spare.
fn put_one(words: &mut Vec<Word>, at: usize, new: Option<Word>, spare: &mut Spare)
    ensures { words.new.items ≡ with_new words.old.items at new }
{
    if let Some(word) = new {
        if at < words.len() {
            let old = mem::replace(&mut words[at], word);
            spare.put(old);
        }
    }
}

/// Puts in new values, from the last one on.
fn put_all(words: &mut Vec<Word>, fresh: Vec<Option<Word>>, spare: &mut Spare)
    ensures { words.new.items ≡ overlaid words.old.items fresh.items }
{
    let mut rest = fresh;
    'rest: while let Some(new) = rest.pop() {
        put_one(words, rest.len(), new, spare);
    }
    spare.put_fresh(rest);
}

impl Vars {
    /// What the variables hold at the start: the words that the rules state. The error means want
    /// of memory.
    pub fn start(alloc: Global, rules: &Rules) -> Result<Vars, Memory>
        ensures { IfOk result (λ vars. vars ≡ start_of rules.now) }
    {
        let mut words = Vec::with_capacity(alloc, rules.variables.len())?;
        'variables: for variable in rules.variables.as_slice() {
            words.push(variable.v.copy(alloc)?)?;
        }
        Ok(Vars { words })
    }

    /// Gives variables their new values; the old ones are spare.
    pub(crate) fn put(&mut self, fresh: Vec<Option<Word>>, spare: &mut Spare)
        ensures { self.new ≡ overlaid self.old fresh.items }
    {
        put_all(&mut self.words, fresh, spare);
    }

    /// The number of variables.
    pub fn len(&self) -> usize
        ensures { result ≡ length self.now }
    {
        self.words.len()
    }

    /// What the variable of this number holds, or none where there is no such variable.
    pub fn get(&self, n: usize) -> Option<&Word>
        ensures { option_copied result ≡ slice_get self.now n }
    {
        self.words.get(n)
    }

    /// The words in order.
    pub fn as_slice(&self) -> &[Word]
        ensures { result.now ≡ self.now }
    {
        self.words.as_slice()
    }
}
