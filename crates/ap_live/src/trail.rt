ghost use Rattle.std.specs.Prelude.{◌≡◌, ◌↔◌, ◌≤◌, ◌<◌, ◌++◌, ◌∷◌, ℕ, [], List, Err, IfOk, IfSome, IsTrue, None, Ok, Some, false, length, slice_get, take, true};
ghost use Rattle.std.specs.List.Sorted.{IsStrictlySortedBy};
ghost use Rattle.ap_symbol.specs.Rendering.{word_cmp};
ghost use Rattle.ap_symbol.specs.declared.symbol.Symbol.{Symbol};
ghost use Rattle.ap_fst.specs.Lists.{IsIn};
ghost use Rattle.ap_fst.specs.declared.label.Edge.{Edge};
ghost use Rattle.ap_live.specs.Fitting.{Input};
ghost use Rattle.ap_live.specs.Outlines.{IsOutline};
ghost use Rattle.ap_live.specs.Outputs.{IsOutput, WritesWords};
ghost use Rattle.ap_live.specs.Reached.{AreStates};
ghost use Rattle.ap_live.specs.Rows.{Reach};
ghost use Rattle.ap_live.specs.Trails.{AreWays, IsFirstFinal, IsOnlyBytes, IsOnlyEnd, IsTrail, LeadsBack, NoneFinal};

use crate::along::word_along;
use crate::node_rows::{add_nodes, first_nodes};
use crate::nodes::Node;
use crate::only::bytes_along;
use crate::outline::Outline;
use crate::states::states_from;
use crate::taken::Taken;
use crate::wording::sort_words;
use ap_fst::Fst;
use ap_symbol::{Bytes, Memory, Symbol, Word};
use std::alloc::Global;
use std::marker::Model;

/// So many nodes a trail may have for all inputs so far, of 24 bytes each. With more of them what is
/// reached is held as rows of states.
const MOST_NODES: usize = 65_536;

/// Room for so many edges of a way is made at first, which most have.
const PLACES: usize = 64;

/// The ways that the inputs so far lead along, as long as they are few: for each number of inputs,
/// from none on, a node for each way, behind those for fewer inputs. A node tells the one before it,
/// so that what a way writes is read back from its last node. The inputs are kept, for where the
/// ways become too many.
#[derive(Debug, Drop)]
pub struct Trail {
    nodes: Vec<Node>,
    firsts: Vec<usize>,
    inputs: Vec<Taken>,
}

impl Model for Trail {
    ghost use Rattle.ap_live.specs.Trails.{Trails};

    ghost Value = { Trails };

    ghost view = { λ t. record {
      nodes = t.nodes.items;
      firsts = t.firsts.items;
      inputs = t.inputs.items;
    } };
}

fn is_made(made: &Result<bool, Memory>) -> bool
    ensures made { result ≡ true → made.now ≡ Ok true }
    ensures not { result ≡ false → made.now ≡ Ok true → ⊥ }
{
    match made {
        Ok(made) => *made,
        Err(_) => false,
    }
}

/// Where the nodes of a row begin.
fn first_at(firsts: &[usize], row: usize) -> Option<usize>
    ensures { result ≡ slice_get firsts.now row }
{
    match firsts.get(row) {
        None => None,
        Some(first) => Some(*first),
    }
}

/// Adds where the nodes of a row begin, and answers whether there was memory for that. If not,
/// nothing is changed.
fn add_first(firsts: &mut Vec<usize>, first: usize) -> bool
    ensures added { result ≡ true → firsts.new.items ≡ firsts.old.items ++ first ∷ [] }
    ensures stayed { result ≡ false → firsts.new.items ≡ firsts.old.items }
{
    match firsts.push(first) {
        Ok(()) => true,
        Err(_) => false,
    }
}

fn node_at(nodes: &[Node], at: usize) -> Option<Node>
    ensures { result ≡ slice_get nodes.now at }
{
    match nodes.get(at) {
        None => None,
        Some(node) => Some(*node),
    }
}

/// The places of the edges of the way that a node stands for, the last first.
fn places_back(alloc: Global, nodes: &[Node], at: usize) -> Result<Vec<usize>, Memory>
    ensures { IfOk result (λ found. (places : List ℕ) → LeadsBack nodes.now at places →
        found.items ≡ places) }
{
    let mut found = Vec::with_capacity(alloc, PLACES)?;
    let mut at = at;
    while at > 0 {
        let Some(node) = node_at(nodes, at) else {
            return Ok(found);
        };
        if node.back >= at {
            return Ok(found);
        }
        found.push(node.edge)?;
        at = node.back;
    }
    Ok(found)
}

/// The first node from a place on that is at a final state.
fn next_final(fst: &Fst, nodes: &[Node], low: usize) -> Option<usize>
    ensures none { result ≡ None → NoneFinal fst.now.finals nodes.now low (length nodes.now) }
    ensures some { (at : ℕ) → result ≡ Some at → IsFirstFinal fst.now.finals nodes.now low at }
    ensures within { (at : ℕ) → result ≡ Some at → at < length nodes.now }
{
    for at in low..nodes.len() {
        if fst.is_final(nodes[at].state) {
            return Some(at);
        }
    }
    None
}

impl Trail {
    /// The ways of no input, unless they are too many.
    pub(crate) fn start(
        alloc: Global,
        fst: &Fst,
        outline: &Outline,
    ) -> Result<Option<Trail>, Memory>
        ensures { IfOk result (λ found. IfSome found (λ trail. IsOutline fst.now.edges outline.now →
            IsTrail fst.now.edges [] trail)) }
    {
        let mut nodes = Vec::new(alloc);
        if !first_nodes(fst, outline, &mut nodes)? {
            return Ok(None);
        }
        let mut firsts = Vec::new(alloc);
        firsts.push(0)?;
        Ok(Some(Trail {
            nodes,
            firsts,
            inputs: Vec::new(alloc),
        }))
    }

    /// The number of inputs.
    pub(crate) fn len(&self) -> usize
        ensures { (edges : List Edge) (seen : List Input) → IsTrail edges seen self.now →
            result ≡ length seen }
    {
        self.inputs.len()
    }

    pub(crate) fn allocator(&self) -> Global {
        *self.nodes.allocator()
    }

    /// The inputs so far.
    pub(crate) fn inputs(&self) -> &[Taken]
        ensures { result.now ≡ self.now.inputs }
    {
        self.inputs.as_slice()
    }

    /// Where the nodes of the last row begin.
    fn low(&self) -> usize
        ensures within { result ≤ length self.now.nodes }
        ensures row { (edges : List Edge) (seen : List Input) → IsTrail edges seen self.now →
            AreWays edges self.now.nodes seen result (length self.now.nodes) }
    {
        match first_at(self.firsts.as_slice(), self.inputs.len()) {
            None => 0,
            Some(first) => first.min(self.nodes.len()),
        }
    }

    /// Goes on by one input, and answers whether it did: not where the ways become too many. Then,
    /// and after a refusal, it is unchanged.
    pub(crate) fn step(
        &mut self,
        fst: &Fst,
        outline: &Outline,
        input: &Symbol,
        sensitive: bool,
    ) -> Result<bool, Memory>
        ensures stepped { result ≡ Ok true → (seen : List Input) → IsOutline fst.now.edges
            outline.now → IsTrail fst.now.edges seen self.old → IsTrail fst.now.edges
            (seen ++ record { symbol = input.now; sensitive = sensitive } ∷ []) self.new }
        ensures stayed { (result ≡ Ok true → ⊥) → self.new ≡ self.old }
    {
        let low = self.low();
        let high = self.nodes.len();
        if high > MOST_NODES {
            return Ok(false);
        }
        let symbol = input.copy(*self.nodes.allocator())?;
        self.inputs.push(Taken { symbol, sensitive })?;
        if !add_first(&mut self.firsts, high) {
            let _ = self.inputs.pop();
            return Err(Memory);
        }
        let made = add_nodes(fst, outline, low, input, sensitive, &mut self.nodes);
        if !is_made(&made) {
            self.nodes.truncate(high);
            let _ = self.firsts.pop();
            let _ = self.inputs.pop();
        }
        made
    }

    /// Goes back to the first so many inputs; where there are no more, nothing changes.
    pub(crate) fn cut(&mut self, len: usize)
        ensures { (edges : List Edge) (seen : List Input) → IsTrail edges seen self.old →
            IsTrail edges (take len seen) self.new }
    {
        if self.inputs.len() <= len {
            return;
        }
        let Some(first) = first_at(self.firsts.as_slice(), len + 1) else {
            return;
        };
        self.nodes.truncate(first);
        self.firsts.truncate(len + 1);
        self.inputs.truncate(len);
    }

    /// Whether the inputs reach no state.
    pub(crate) fn reaches_none(&self) -> bool
        ensures { (edges : List Edge) (seen : List Input) → IsTrail edges seen self.now →
            (IsTrue result ↔ ((s : ℕ) → Reach edges seen s → ⊥)) }
    {
        self.low() == self.nodes.len()
    }

    /// The states that the inputs reach, in order, each once; none where there are many ways, or
    /// there is no memory for them.
    pub(crate) fn states(&self) -> Option<Vec<usize>>
        ensures { IfSome result (λ states. (edges : List Edge) (seen : List Input) →
            IsTrail edges seen self.now → AreStates edges seen states.items) }
    {
        states_from(self.allocator(), self.nodes.as_slice(), self.low())
    }

    /// Whether the inputs reach a final state.
    pub(crate) fn accepts(&self, fst: &Fst) -> bool
        ensures { (seen : List Input) → IsTrail fst.now.edges seen self.now →
            (IsTrue result ↔ ((s : ℕ) × (Reach fst.now.edges seen s × IsIn s fst.now.finals))) }
    {
        let low = self.low();
        for at in low..self.nodes.len() {
            if fst.is_final(self.nodes[at].state) {
                return true;
            }
        }
        false
    }

    /// What the ways to a final state write, in the order of words, each once.
    pub(crate) fn words(
        &self,
        alloc: Global,
        fst: &Fst,
        outline: &Outline,
    ) -> Result<Vec<Word>, Memory>
        requires { WritesWords fst.now }
        ensures members { IfOk result (λ words. IsOutline fst.now.edges outline.now →
            (seen : List Input) → IsTrail fst.now.edges seen self.now → (w : List Symbol) →
            IsIn w words.items ↔ IsOutput fst.now seen w) }
        ensures order { IfOk result (λ words. IsStrictlySortedBy word_cmp words.items) }
    {
        let mut words = Vec::new(alloc);
        let nodes = self.nodes.as_slice();
        let low = self.low();
        for at in low..nodes.len() {
            if fst.is_final(nodes[at].state) {
                let places = places_back(alloc, nodes, at)?;
                words.push(word_along(alloc, fst, outline, places)?)?;
            }
        }
        sort_words(&mut words);
        Ok(words)
    }
    /// The only node of the last row that is at a final state.
    fn only_end(&self, fst: &Fst) -> Option<usize>
        ensures { (end : ℕ) (seen : List Input) → result ≡ Some end →
            IsTrail fst.now.edges seen self.now → IsOnlyEnd fst.now self.now.nodes seen end }
    {
        let nodes = self.nodes.as_slice();
        let end = next_final(fst, nodes, self.low())?;
        if next_final(fst, nodes, end + 1).is_some() {
            return None;
        }
        Some(end)
    }

    /// Appends the bytes of what the only way to a final state writes, if there is one alone, and
    /// answers whether there is.
    pub(crate) fn render_only(
        &self,
        fst: &Fst,
        outline: &Outline,
        into: &mut Bytes,
    ) -> Result<bool, Memory>
        requires { WritesWords fst.now }
        ensures { result ≡ Ok true → IsOutline fst.now.edges outline.now → (seen : List Input) →
            IsTrail fst.now.edges seen self.now → IsOnlyBytes fst.now seen into.old into.new }
    {
        let Some(end) = self.only_end(fst) else {
            return Ok(false);
        };
        let alloc = self.allocator();
        let places = places_back(alloc, self.nodes.as_slice(), end)?;
        let bytes = bytes_along(alloc, fst, outline, places)?;
        into.extend(bytes.as_slice())?;
        Ok(true)
    }
}
