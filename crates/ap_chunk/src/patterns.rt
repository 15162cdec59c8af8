ghost use Rattle.std.specs.Prelude.{◌≡◌, ◌<◌, ℕ, map, length, IfOk, OnOk, ◌||◌, ◌&&◌, ◌==◌, []};
ghost use Rattle.std.specs.List.{list_any};
ghost use Rattle.ap_chunk.specs.Live.{IsLeast, is_over};
ghost use Rattle.ap_chunk.specs.Patterns.{pattern_of, patterns_of, lists, list_at, has, begins_with, is_filled, first_empty, IsIndex};

use ap_rules::{Rule, Rules};
use ap_symbol::Memory;
use std::alloc::Global;
use std::marker::Model;

/// The patterns of rules, each the categories of its items, and what is found in them at once.
/// Contracts see the patterns.
#[derive(Drop)]
pub(crate) struct Patterns {
    patterns: Vec<Vec<usize>>,
    /// For each category the rules whose pattern begins with it.
    beginning: Vec<Vec<usize>>,
    /// The first rule whose pattern has no item; the number of rules where each has one.
    empty: usize,
    /// Whether some rule's pattern has an item.
    filled: bool,
}

impl Model for Patterns {
    ghost use Rattle.std.specs.Prelude.{List, ℕ};
    ghost use Rattle.ap_chunk.specs.Patterns.{lists, AreKept};

    ghost Value = { List (List ℕ) };

    ghost view = { λ p. lists p.patterns.items };

    ghost invariant = { λ p. AreKept (lists p.patterns.items) (lists p.beginning.items)
        p.empty p.filled };
}

/// The categories of a rule's pattern.
fn categories_of(alloc: Global, rule: &Rule) -> Result<Vec<usize>, Memory>
    ensures { IfOk result (λ made. made.items ≡ pattern_of rule.now) }
{
    let mut made = Vec::with_capacity(alloc, rule.pattern.len())?;
    for item in rule.pattern.as_slice() {
        made.push(item.n)?;
    }
    Ok(made)
}

fn all_patterns(alloc: Global, rules: &[Rule]) -> Result<Vec<Vec<usize>>, Memory>
    ensures { IfOk result (λ made. lists made.items ≡ map pattern_of rules.now) }
{
    let mut made = Vec::with_capacity(alloc, rules.len())?;
    for rule in rules {
        made.push(categories_of(alloc, rule)?)?;
    }
    Ok(made)
}

/// Whether a pattern has an item.
pub(crate) fn has_items(pattern: &[usize]) -> bool
    ensures { result ≡ is_filled pattern.now }
{
    match pattern {
        [] => false,
        [_, ..] => true,
    }
}

fn first_without(patterns: &[Vec<usize>]) -> usize
    ensures { result ≡ first_empty (lists patterns.now) }
{
    for at in 0..patterns.len() {
        if !has_items(patterns[at].as_slice()) {
            return at;
        }
    }
    patterns.len()
}

fn some_with_items(patterns: &[Vec<usize>]) -> bool
    ensures { result ≡ list_any is_filled (lists patterns.now) }
{
    for pattern in patterns {
        if has_items(pattern.as_slice()) {
            return true;
        }
    }
    false
}

/// Lengthens a list of lists by empty ones, so that there is one of this number.
fn lengthen(alloc: Global, number: usize, into: &mut Vec<Vec<usize>>) -> Result<(), Memory>
    ensures same { OnOk result ((n : ℕ) → list_at (lists into.new.items) n
        ≡ list_at (lists into.old.items) n) }
    ensures within { OnOk result (number < length into.new.items) }
{
    'room: while into.len() <= number {
        into.push(Vec::new(alloc))?;
    }
    Ok(())
}

/// Appends a rule to the list of its first category.
fn add_rule(
    alloc: Global,
    category: usize,
    rule: usize,
    into: &mut Vec<Vec<usize>>,
) -> Result<(), Memory>
    ensures { OnOk result ((c r : ℕ) → has (list_at (lists into.new.items) c) r
        ≡ (has (list_at (lists into.old.items) c) r || ((category == c) && (rule == r)))) }
{
    lengthen(alloc, category, into)?;
    into[category].push(rule)?;
    Ok(())
}

/// Appends a rule to the list of the category that its pattern begins with.
fn index_rule(
    alloc: Global,
    pattern: &[usize],
    rule: usize,
    into: &mut Vec<Vec<usize>>,
) -> Result<(), Memory>
    ensures { OnOk result ((c r : ℕ) → has (list_at (lists into.new.items) c) r
        ≡ (has (list_at (lists into.old.items) c) r
        || (begins_with c pattern.now && (rule == r)))) }
{
    match pattern {
        [] => Ok(()),
        [category, ..] => add_rule(alloc, *category, rule, into),
    }
}

/// For each category the rules whose pattern begins with it.
fn index(alloc: Global, patterns: &[Vec<usize>]) -> Result<Vec<Vec<usize>>, Memory>
    ensures { IfOk result (λ made. IsIndex (lists patterns.now) (lists made.items)) }
{
    let mut made = Vec::new(alloc);
    for rule in 0..patterns.len() {
        index_rule(alloc, patterns[rule].as_slice(), rule, &mut made)?;
    }
    Ok(made)
}

impl Patterns {
    /// The patterns of the rules of a file. The error means want of memory.
    pub(crate) fn new(alloc: Global, rules: &Rules) -> Result<Patterns, Memory>
        ensures { IfOk result (λ made. made ≡ patterns_of rules.now) }
    {
        let patterns = all_patterns(alloc, rules.rules.as_slice())?;
        let beginning = index(alloc, patterns.as_slice())?;
        let empty = first_without(patterns.as_slice());
        let filled = some_with_items(patterns.as_slice());
        Ok(Patterns {
            patterns,
            beginning,
            empty,
            filled,
        })
    }

    /// The categories of a rule's pattern; none where there are not so many rules.
    pub(crate) fn pattern(&self, rule: usize) -> &[usize]
        ensures { result.now ≡ list_at self.now rule }
    {
        match self.patterns.get(rule) {
            None => &[],
            Some(pattern) => pattern.as_slice(),
        }
    }

    /// The rules whose pattern begins with a category.
    pub(crate) fn beginning_with(&self, category: usize) -> &[usize]
        ensures { (r : ℕ) → has result.now r ≡ begins_with category (list_at self.now r) }
    {
        match self.beginning.get(category) {
            None => &[],
            Some(rules) => rules.as_slice(),
        }
    }

    /// The least rule whose pattern has no item.
    pub(crate) fn without_items(&self) -> Option<usize>
        ensures { IsLeast (is_over self.now []) result }
    {
        if self.empty < self.patterns.len() {
            return Some(self.empty);
        }
        None
    }

    /// Whether some rule's pattern has an item.
    pub(crate) fn some_goes_on(&self) -> bool
        ensures { result ≡ list_any is_filled self.now }
    {
        self.filled
    }
}
