ghost use Rattle.std.specs.Prelude.{false, true, ◌≡◌, ◌<◌, ◌≤◌, ◌+◌, ℕ, IfOk, OnOk, IsTrue, List, None, Option, Some, length, slice_get};
ghost use Rattle.std.specs.List.Sorted.{IsNonDecreasingBy};
ghost use Rattle.ap_symbol.specs.Words.{is_white};
ghost use Rattle.ap_fst.specs.Machines.{edge_from, IsSpan};
ghost use Rattle.ap_fst.specs.declared.label.Edge.{Edge};
ghost use Rattle.std.specs.Int.{bit_at};
ghost use Rattle.ap_live.specs.Outlines.{AreCodes, AreEntries, AreFirsts, HasRight, IsBit, IsCut, IsFirstPlace, IsOutline, Rises, SoFar, TellsRight, side_code};

use crate::items::symbol_code;
use crate::picking::is_symbol;
use ap_fst::{Edge, Fst};
use ap_symbol::{Memory, Symbol, is_white};
use std::alloc::Global;

/// The code of a side with a tag or a mark. That of an empty side is 0, and that of a letter
/// is one more than the letter.
const OTHER: u32 = u32::MAX;

/// From this code on a right side is that of the edge at a place, which is told by what is beyond.
const PLACES: u32 = 2_097_152;

/// The code of the first small letter.
const SMALL: u32 = 98;

/// So many bits are those of small letters.
const LETTERS: u32 = 26;

/// The greatest number that five bits hold.
const MOST: u32 = 31;

/// The bit of an empty side.
const EMPTY: u32 = 31;

/// So many places of edges are kept at a time for their right sides.
const SLOTS: usize = 256;

/// Where a state's edges begin. `codes` is of the edges of the state before it: a bit for each small
/// letter, and the last one for an empty side, tell which of these their left sides may have. The
/// five bits between tell how many of them come before those with small letters, so that mostly it
/// is known where an edge with some letter stands.
#[derive(Clone, Copy, Debug)]
pub struct First {
    pub place: u32,
    pub codes: u32,
}

/// The codes of an edge's sides, and the state that it enters. The right one of a tag or a mark tells
/// the place of an edge with the same right side: few edges are read then, which take much room.
#[derive(Clone, Copy, Debug)]
pub struct Entry {
    pub left: u32,
    pub to: u32,
    pub right: u32,
}

/// What of a transducer is read at each step, in little room: for each state the place of its first
/// edge, with one more for the end, and for each edge an entry. Where a transducer doesn't fit
/// there are fewer of them, and its edges are looked up by halving.
#[derive(Debug, Drop)]
pub struct Outline {
    pub firsts: Vec<First>,
    pub entries: Vec<Entry>,
}

/// The code of a letter.
pub(crate) fn letter_code(letter: char) -> u32
    ensures code { result ≡ letter + 1 }
    ensures small { result < 4_294_967_295 }
{
    letter as u32 + 1
}

/// The code of an input, as of a side.
pub(crate) fn code_of_input(input: &Symbol) -> u32
    ensures { result ≡ side_code (Some input.now) }
{
    match input {
        Symbol::Letter(letter) => letter_code(*letter),
        _ => OTHER,
    }
}

/// The code of a side.
fn code_of(side: &Option<Symbol>) -> u32
    ensures { result ≡ side_code side.now }
{
    match side {
        None => 0,
        Some(symbol) => code_of_input(symbol),
    }
}

/// Whether the edges before this place leave smaller states.
fn is_behind_smaller(edges: &[Edge], place: usize, from: usize) -> bool
    requires { IsNonDecreasingBy edge_from edges.now }
    ensures end { IsTrue result → place ≤ length edges.now }
    ensures before { IsTrue result → (j : ℕ) (e : Edge) → slice_get edges.now j ≡ Some e →
        j < place → e.from < from }
{
    if place == 0 {
        return true;
    }
    if edges.len() < place {
        return false;
    }
    edges[place - 1].from < from
}

/// Whether the edges from this place on leave no smaller states.
fn is_before_others(edges: &[Edge], place: usize, from: usize) -> bool
    requires { IsNonDecreasingBy edge_from edges.now }
    ensures { IsTrue result → (j : ℕ) (e : Edge) → slice_get edges.now j ≡ Some e → place ≤ j →
        from ≤ e.from }
{
    if edges.len() <= place {
        return true;
    }
    from <= edges[place].from
}

/// Whether the edges of a state begin at this place, which the edges beside it tell.
fn is_first(edges: &[Edge], place: usize, from: usize) -> bool
    requires { IsNonDecreasingBy edge_from edges.now }
    ensures { IsTrue result → IsFirstPlace edges.now from place }
{
    is_behind_smaller(edges, place, from) && is_before_others(edges, place, from)
}

/// The bit of a code, where it has one.
fn bit_of(code: u32) -> Option<u32>
    ensures some { (b : ℕ) → result ≡ Some b → IsBit code b × (b < 32) }
    ensures none { result ≡ None → (b : ℕ) → IsBit code b → ⊥ }
{
    if code == 0 {
        return Some(EMPTY);
    }
    if code < SMALL || code >= SMALL + LETTERS {
        return None;
    }
    Some(code - SMALL)
}

/// The codes with one more.
fn with_code(codes: u32, code: u32) -> u32
    ensures has { (b : ℕ) → IsBit code b → bit_at result b ≡ 1 }
    ensures kept { (b : ℕ) → bit_at codes b ≡ 1 → bit_at result b ≡ 1 }
{
    match bit_of(code) {
        None => codes,
        Some(bit) => codes | (1 << bit),
    }
}

/// The codes with the number of edges that come before those with small letters, or with the greatest
/// one that there is room for.
fn with_count(codes: u32, count: u32) -> u32
    ensures { (b : ℕ) → bit_at codes b ≡ 1 → bit_at result b ≡ 1 }
{
    codes | (count.min(MOST) << LETTERS)
}

/// One more, where an edge with this code comes before those with small letters.
fn count_on(count: u32, code: u32) -> u32 {
    if code < SMALL {
        return count.saturating_add(1);
    }
    count
}

/// Whether one of the edges that these codes are of may have this one on the left.
pub(crate) fn may_have(codes: u32, code: u32) -> bool
    ensures { result ≡ false → (edges : List Edge) (first last j : ℕ) (e : Edge) →
        AreCodes edges first last codes → slice_get edges j ≡ Some e → first ≤ j → j < last →
        side_code e.label.left ≡ code → ⊥ }
{
    match bit_of(code) {
        None => true,
        Some(bit) => (codes >> bit) & 1 == 1,
    }
}

/// So many edges come before the one with this code among those that the codes are of, where no two
/// of them have the same letter: a place that is looked at first.
fn count_before(codes: u32, code: u32) -> usize {
    match bit_of(code) {
        None => 0,
        Some(bit) => {
            let smaller = codes & 1_u32.wrapping_shl(bit).wrapping_sub(1);
            smaller
                .count_ones()
                .saturating_add((codes >> LETTERS) & MOST) as usize
        }
    }
}

/// What is told of the edges from where the last state's begin up to a place: nothing, where that is
/// this place.
fn codes_behind(firsts: &[First], place: usize, codes: u32) -> u32
    ensures { (edges : List Edge) → SoFar edges firsts.now place codes →
        SoFar edges firsts.now place result }
{
    match firsts.last() {
        None => codes,
        Some(first) => {
            if first.place as usize == place {
                return 0;
            }
            codes
        }
    }
}

/// Lengthens the places to those of so many states, by this one, as far as it is theirs. The codes
/// are those of the edges from the last one on.
fn lengthen(
    edges: &[Edge],
    len: usize,
    place: usize,
    codes: u32,
    firsts: &mut Vec<First>,
) -> Result<(), Memory>
    requires { IsNonDecreasingBy edge_from edges.now }
    ensures firsts { OnOk result (AreFirsts edges.now firsts.old.items
        → SoFar edges.now firsts.old.items place codes → AreFirsts edges.now firsts.new.items) }
    ensures so_far { OnOk result ((codes : ℕ) → SoFar edges.now firsts.old.items place codes
        → SoFar edges.now firsts.new.items place codes) }
{
    let Ok(first) = u32::try_from(place) else {
        return Ok(());
    };
    for _ in firsts.len()..len {
        if !is_first(edges, place, firsts.len()) {
            return Ok(());
        }
        firsts.push(First {
            place: first,
            codes,
        })?;
    }
    Ok(())
}

/// The same, with a look before it: mostly there are so many.
fn fill(
    edges: &[Edge],
    len: usize,
    place: usize,
    codes: u32,
    firsts: &mut Vec<First>,
) -> Result<(), Memory>
    requires { IsNonDecreasingBy edge_from edges.now }
    ensures firsts { OnOk result (AreFirsts edges.now firsts.old.items
        → SoFar edges.now firsts.old.items place codes → AreFirsts edges.now firsts.new.items) }
    ensures so_far { OnOk result ((codes : ℕ) → SoFar edges.now firsts.old.items place codes
        → SoFar edges.now firsts.new.items place codes) }
{
    if firsts.len() >= len {
        return Ok(());
    }
    lengthen(edges, len, place, codes, firsts)
}

/// Whether there is an edge at a place, and this is its right side.
fn has_right(edges: &[Edge], place: usize, right: &Symbol) -> bool
    ensures { result ≡ true → HasRight edges.now place (Some right.now) }
{
    match edges.get(place) {
        None => false,
        Some(edge) => match &edge.label.right {
            None => false,
            Some(symbol) => is_symbol(symbol, right),
        },
    }
}

/// The place of an edge with this right side, which the one at a place has: the last that was kept
/// for such symbols, or else this place, which is kept from now on.
fn like_place(edges: &[Edge], place: usize, right: &Symbol, known: &mut Vec<usize>) -> usize
    requires { HasRight edges.now place (Some right.now) }
    ensures { HasRight edges.now result (Some right.now) }
{
    let slot = symbol_code(0, right) % SLOTS;
    if slot >= known.len() {
        return place;
    }
    let like = known[slot];
    if has_right(edges, like, right) {
        return like;
    }
    known[slot] = place;
    place
}

/// The code that tells a place, where there is one.
fn place_code(place: usize) -> u32
    ensures least { 2_097_152 ≤ result }
    ensures is { result < 4_294_967_295 → result ≡ place + 2_097_152 }
{
    match u32::try_from(place) {
        Err(_) => OTHER,
        Ok(place) => place.saturating_add(PLACES),
    }
}

/// The code of the right side of the edge at a place.
fn right_code(edges: &[Edge], place: usize, known: &mut Vec<usize>) -> u32
    requires { place < length edges.now }
    ensures { (side : Option Symbol) → HasRight edges.now place side →
        TellsRight edges.now result side }
{
    match &edges[place].label.right {
        None => 0,
        Some(Symbol::Letter(letter)) => letter_code(*letter),
        Some(symbol) => place_code(like_place(edges, place, symbol, known)),
    }
}

/// Adds the entry of the edge at this place, if each edge before it has one and the state that it
/// enters has a number that isn't too great.
fn add_entry(
    edges: &[Edge],
    place: usize,
    known: &mut Vec<usize>,
    entries: &mut Vec<Entry>,
) -> Result<(), Memory>
    requires { place < length edges.now }
    ensures { OnOk result (AreEntries edges.now entries.old.items
        → AreEntries edges.now entries.new.items) }
{
    if entries.len() != place {
        return Ok(());
    }
    let edge = &edges[place];
    let Ok(to) = u32::try_from(edge.to) else {
        return Ok(());
    };
    let left = code_of(&edge.label.left);
    let right = right_code(edges, place, known);
    entries.push(Entry { left, to, right })?;
    Ok(())
}

/// The outline of a transducer: for each state, and for the one behind the last, the place of the
/// first edge that leaves no smaller state, and the entries of the edges, up to the first that
/// enters a state whose number is too great. A transducer may claim more states than memory has
/// room for, so states beyond about twice the number of edges have no place.
pub(crate) fn outline_of(alloc: Global, fst: &Fst) -> Result<Outline, Memory>
    ensures { IfOk result (λ outline. IsOutline fst.now.edges outline) }
{
    let edges = fst.edges();
    let most = edges.len().saturating_mul(2).saturating_add(16);
    let all = fst.states().saturating_add(1).min(most);
    let mut firsts = Vec::with_capacity(alloc, all)?;
    let mut entries = Vec::with_capacity(alloc, edges.len())?;
    let mut known = Vec::new(alloc);
    known.resize(SLOTS, 0)?;
    let mut codes = 0;
    let mut count = 0;
    for place in 0..edges.len() {
        let len = edges[place].from.saturating_add(1).min(all);
        fill(edges, len, place, with_count(codes, count), &mut firsts)?;
        let code = code_of(&edges[place].label.left);
        codes = with_code(codes_behind(firsts.as_slice(), place, codes), code);
        count = count_on(codes_behind(firsts.as_slice(), place, count), code);
        add_entry(edges, place, &mut known, &mut entries)?;
    }
    fill(
        edges,
        all,
        edges.len(),
        with_count(codes, count),
        &mut firsts,
    )?;
    Ok(Outline { firsts, entries })
}

/// The code of the right side of the edge at a place, as far as there is an entry: else it is that
/// of tags and marks, which tells nothing.
pub(crate) fn right_at(outline: &Outline, place: usize) -> u32
    ensures { (edges : List Edge) (e : Edge) → IsOutline edges outline.now →
        slice_get edges place ≡ Some e → TellsRight edges result e.label.right }
{
    match entry_at(outline.entries.as_slice(), place) {
        None => OTHER,
        Some(entry) => entry.right,
    }
}

fn entry_at(entries: &[Entry], place: usize) -> Option<Entry>
    ensures { result ≡ slice_get entries.now place }
{
    match entries.get(place) {
        None => None,
        Some(entry) => Some(*entry),
    }
}

/// The place of an edge with the right side that this code tells, of the one at a place.
pub(crate) fn place_of(code: u32, place: usize) -> usize
    ensures { (edges : List Edge) (side : Option Symbol) → TellsRight edges code side →
        HasRight edges place side → HasRight edges result side }
{
    if code < PLACES || code == OTHER {
        return place;
    }
    (code - PLACES) as usize
}

/// The letter of a code, where it is that of a letter that a word may hold.
pub(crate) fn letter_of(code: u32) -> Option<char>
    ensures { (c : ℕ) → result ≡ Some c → (code ≡ c + 1) × (code < 2_097_152)
        × (is_white c ≡ false) }
{
    let letter = char::from_u32(code.checked_sub(1)?)?;
    if is_white(letter) {
        return None;
    }
    Some(letter)
}

fn first_at(firsts: &[First], state: usize) -> Option<First>
    ensures { result ≡ slice_get firsts.now state }
{
    match firsts.get(state) {
        None => None,
        Some(first) => Some(*first),
    }
}

/// The places from the first up to the second that hold the entries of a state's edges, if they are
/// all there, and the codes of these edges.
pub(crate) fn span_in(outline: &Outline, from: usize) -> Option<(usize, usize, u32)>
    ensures last { (first last codes : ℕ) → result ≡ Some (first, last, codes) →
        last ≤ length outline.now.entries.items }
    ensures span { (edges : List Edge) (first last codes : ℕ) →
        result ≡ Some (first, last, codes) → IsOutline edges outline.now →
        IsSpan edges from first last }
    ensures codes { (edges : List Edge) (first last codes : ℕ) →
        result ≡ Some (first, last, codes) → IsOutline edges outline.now →
        AreCodes edges first last codes }
{
    if from == usize::MAX {
        return None;
    }
    let firsts = outline.firsts.as_slice();
    let first = first_at(firsts, from)?;
    let next = first_at(firsts, from + 1)?;
    let last = next.place as usize;
    if outline.entries.len() < last {
        return None;
    }
    Some((first.place as usize, last, next.codes))
}

/// Whether an entry with this code stands at the place, before the last.
pub(crate) fn has_code(entries: &[Entry], place: usize, last: usize, code: u32) -> bool
    requires { last ≤ length entries.now }
    ensures there { result ≡ true → place < last × ((x : Entry) →
        slice_get entries.now place ≡ Some x → x.left ≡ code) }
    ensures not { result ≡ false → place < last → (x : Entry) →
        slice_get entries.now place ≡ Some x → x.left ≡ code → ⊥ }
{
    place < last && entries[place].left == code
}

/// Among so few entries the one that is looked for is come to one by one: where to go on from one
/// is known at once, and halving has to wait for each.
const FEW: usize = 6;

/// The first of these places whose entry has no smaller code than this, one by one.
fn next_from(entries: &[Entry], first: usize, last: usize, code: u32) -> usize
    requires { first < last → last ≤ length entries.now }
    ensures { Rises entries.now first last → IsCut entries.now first last code result }
{
    let mut low = first;
    while low < last {
        if entries[low].left >= code {
            return low;
        }
        low += 1;
    }
    low
}

/// The first of these places whose entry has no smaller code than this: by halving, and among few
/// one by one.
fn cut_of(entries: &[Entry], first: usize, last: usize, code: u32) -> usize
    requires { last ≤ length entries.now }
    ensures { Rises entries.now first last → IsCut entries.now first last code result }
{
    let mut low = first;
    let mut high = last;
    while high.saturating_sub(low) > FEW {
        let middle = low + (high - low) / 2;
        if entries[middle].left < code {
            low = middle + 1;
        } else {
            high = middle;
        }
    }
    next_from(entries, low, high, code)
}

/// Whether the first entry with this code stands at a place.
fn is_low(entries: &[Entry], first: usize, last: usize, code: u32, place: usize) -> bool
    requires within { last ≤ length entries.now }
    requires from { first ≤ place }
    ensures { result ≡ true → Rises entries.now first last →
        IsCut entries.now first last code place }
{
    if place >= last {
        return false;
    }
    let begins = place <= first;
    let before = entries[place.saturating_sub(1)].left < code;
    (entries[place].left == code) & (begins | before)
}

/// The first of these places whose entry has no smaller code than this: the one that the codes tell,
/// if it is so.
pub(crate) fn low_of(entries: &[Entry], first: usize, last: usize, codes: u32, code: u32) -> usize
    requires { last ≤ length entries.now }
    ensures { Rises entries.now first last → IsCut entries.now first last code result }
{
    let place = first.saturating_add(count_before(codes, code));
    if is_low(entries, first, last, code, place) {
        return place;
    }
    cut_of(entries, first, last, code)
}
