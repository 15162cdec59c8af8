ghost use Rattle.std.specs.Prelude.{◌≡◌, ◌+◌, ◌^◌, ◌<◌, ◌++◌, ◌↔◌, [], ◌∷◌, map, List, IfOk, OnOk, IsTrue};
ghost use Rattle.ap_fst.specs.Sides.{has_side};
ghost use Rattle.ap_fst.specs.Places.{placed, moved, Shifts};

use crate::fst::Fst;
use crate::label::Label;
use crate::redrafting::moves_of;
use crate::without_right::moves_without;
use ap_symbol::{Memory, TagName};
use std::alloc::Global;
use std::marker::Model;

/// A move of a draft: with a label, or empty.
#[derive(Debug, Drop)]
pub struct Move {
    pub(crate) from: usize,
    pub(crate) label: Option<Label>,
    pub(crate) to: usize,
}

/// Where the states of a second draft go beside those of a first.
#[derive(Clone, Copy)]
struct Place {
    by: usize,
    start: usize,
    start_at: usize,
    end: usize,
    end_at: usize,
}

impl Place {
    fn of(self, state: usize) -> usize
        requires { state + self.by < 2 ^ 64 }
        ensures { result ≡ placed self state }
    {
        if state == self.start {
            self.start_at
        } else if state == self.end {
            self.end_at
        } else {
            state + self.by
        }
    }
}

fn add_moves(moves: &mut Vec<Move>, more: Vec<Move>, place: Place) -> Result<(), Memory>
    requires { Shifts more.items place.by }
    ensures ok { OnOk result (moves.new.items ≡ moves.old.items ++ map (moved place) more.items) }
{
    for next in more {
        let Move { from, label, to } = next;
        let from = place.of(from);
        let to = place.of(to);
        moves.push(Move { from, label, to })?;
    }
    Ok(())
}

fn copy_label(alloc: Global, label: &Option<Label>) -> Result<Option<Label>, Memory>
    ensures { IfOk result (λ made. made ≡ label.now) }
{
    match label {
        None => Ok(None),
        Some(label) => Ok(Some(label.copy(alloc)?)),
    }
}

fn copy_moves(alloc: Global, moves: &[Move]) -> Result<Vec<Move>, Memory>
    ensures { IfOk result (λ made. made.items ≡ moves.now) }
{
    let mut made = Vec::new(alloc);
    for next in moves {
        made.push(Move {
            from: next.from,
            label: copy_label(alloc, &next.label)?,
            to: next.to,
        })?;
    }
    Ok(made)
}

fn push_empty(moves: &mut Vec<Move>, from: usize, to: usize) -> Result<(), Memory>
    ensures { OnOk result (moves.new.items ≡ moves.old.items
        ++ record { from = from; label = None; to = to } ∷ []) }
{
    moves.push(Move {
        from,
        label: None,
        to,
    })?;
    Ok(())
}

/// A transducer with empty moves, one start and one end. No move enters its start or leaves its
/// end.
#[derive(Debug, Drop)]
pub struct Draft {
    pub(crate) states: usize,
    pub(crate) start: usize,
    pub(crate) end: usize,
    pub(crate) moves: Vec<Move>,
}

impl Model for Draft {
    ghost use Rattle.ap_fst.specs.Sketches.{Sketch, IsSketch};

    ghost Value = { Sketch };

    ghost view = { λ d. record {
      states = d.states;
      start = d.start;
      finish = d.end;
      moves =
          d.moves.items;
    } };

    ghost invariant = { λ d. IsSketch
        (record { states = d.states; start = d.start; finish = d.end; moves = d.moves.items }) };
}

impl Draft {
    ghost use Rattle.ap_fst.specs.Paths.{Accepts, IsJoined, IsEither, IsOptional, IsMoreThanNone, Repeats};
    ghost use Rattle.ap_fst.specs.Walks.{AcceptsLabels};
    ghost use Rattle.ap_fst.specs.Without.{IsLeftOf};
    ghost use Rattle.ap_fst.specs.declared.label.Label.{Label};

    /// Accepts no string.
    pub fn nothing(alloc: Global) -> Result<Draft, Memory>
        ensures { IfOk result (λ made. (labels : List Label) → Accepts made labels → ⊥) }
    {
        Ok(Draft {
            states: 2,
            start: 0,
            end: 1,
            moves: Vec::new(alloc),
        })
    }

    /// Accepts that one label.
    pub fn letter(alloc: Global, label: Label) -> Result<Draft, Memory>
        requires { IsTrue (has_side label) }
        ensures { IfOk result (λ made. (labels : List Label) →
            Accepts made labels ↔ (labels ≡ label ∷ [])) }
    {
        let mut moves = Vec::new(alloc);
        moves.push(Move {
            from: 0,
            label: Some(label),
            to: 1,
        })?;
        Ok(Draft {
            states: 2,
            start: 0,
            end: 1,
            moves,
        })
    }

    /// Accepts the empty string.
    pub fn empty(alloc: Global) -> Result<Draft, Memory>
        ensures { IfOk result (λ made. (labels : List Label) →
            Accepts made labels ↔ (labels ≡ [])) }
    {
        let mut moves = Vec::new(alloc);
        moves.push(Move {
            from: 0,
            label: None,
            to: 1,
        })?;
        Ok(Draft {
            states: 2,
            start: 0,
            end: 1,
            moves,
        })
    }

    /// Accepts a string of the first and then one of the second.
    pub fn join(self, other: Draft) -> Result<Draft, Memory>
        ensures { IfOk result (λ made. (labels : List Label) →
            Accepts made labels ↔ IsJoined self other labels) }
    {
        let Draft {
            states,
            start,
            end,
            mut moves,
        } = self;
        let Draft {
            states: more_states,
            start: more_start,
            end: more_end,
            moves: more,
        } = other;
        let Some(all) = states.checked_add(more_states) else {
            return Err(Memory);
        };
        let place = Place {
            by: states,
            start: more_start,
            start_at: end,
            end: more_end,
            end_at: more_end + states,
        };
        add_moves(&mut moves, more, place)?;
        Ok(Draft {
            states: all,
            start,
            end: more_end + states,
            moves,
        })
    }

    /// Accepts the strings of both.
    pub fn either(self, other: Draft) -> Result<Draft, Memory>
        ensures { IfOk result (λ made. (labels : List Label) →
            Accepts made labels ↔ IsEither self other labels) }
    {
        let Draft {
            states,
            start,
            end,
            mut moves,
        } = self;
        let Draft {
            states: more_states,
            start: more_start,
            end: more_end,
            moves: more,
        } = other;
        let Some(all) = states.checked_add(more_states) else {
            return Err(Memory);
        };
        let place = Place {
            by: states,
            start: more_start,
            start_at: start,
            end: more_end,
            end_at: end,
        };
        add_moves(&mut moves, more, place)?;
        Ok(Draft {
            states: all,
            start,
            end,
            moves,
        })
    }

    /// Accepts any number of strings of it, one after another.
    pub fn star(self) -> Result<Draft, Memory>
        ensures { IfOk result (λ made. (labels : List Label) →
            Accepts made labels ↔ Repeats self labels) }
    {
        let Draft {
            states,
            start,
            end,
            mut moves,
        } = self;
        let Some(all) = states.checked_add(2) else {
            return Err(Memory);
        };
        push_empty(&mut moves, states, start)?;
        push_empty(&mut moves, end, start)?;
        push_empty(&mut moves, end, states + 1)?;
        push_empty(&mut moves, states, states + 1)?;
        Ok(Draft {
            states: all,
            start: states,
            end: states + 1,
            moves,
        })
    }

    /// Accepts one string of it or more, one after another.
    pub fn plus(self) -> Result<Draft, Memory>
        ensures { IfOk result (λ made. (labels : List Label) →
            Accepts made labels ↔ IsMoreThanNone self labels) }
    {
        let Draft {
            states,
            start,
            end,
            mut moves,
        } = self;
        let Some(all) = states.checked_add(2) else {
            return Err(Memory);
        };
        push_empty(&mut moves, states, start)?;
        push_empty(&mut moves, end, start)?;
        push_empty(&mut moves, end, states + 1)?;
        Ok(Draft {
            states: all,
            start: states,
            end: states + 1,
            moves,
        })
    }

    /// Accepts at most one string of it.
    pub fn opt(self) -> Result<Draft, Memory>
        ensures { IfOk result (λ made. (labels : List Label) →
            Accepts made labels ↔ IsOptional self labels) }
    {
        let Draft {
            states,
            start,
            end,
            mut moves,
        } = self;
        push_empty(&mut moves, start, end)?;
        Ok(Draft {
            states,
            start,
            end,
            moves,
        })
    }

    /// A draft of a transducer: it accepts the same label strings.
    pub fn of(alloc: Global, fst: &Fst) -> Result<Draft, Memory>
        ensures { IfOk result (λ made. (labels : List Label) →
            Accepts made labels ↔ AcceptsLabels fst.now labels) }
    {
        let states = fst.states();
        let Some(all) = states.checked_add(2) else {
            return Err(Memory);
        };
        let moves = moves_of(alloc, fst)?;
        Ok(Draft {
            states: all,
            start: states,
            end: states + 1,
            moves,
        })
    }

    /// A draft of a transducer without that tag on right sides: its label strings are those of the
    /// transducer with that tag left out of the right sides, where a label whose two sides are then
    /// empty is left out whole.
    pub fn without_right(alloc: Global, fst: &Fst, tag: &TagName) -> Result<Draft, Memory>
        ensures { IfOk result (λ made. (labels : List Label) →
            Accepts made labels ↔ IsLeftOf fst.now tag.now labels) }
    {
        let Draft {
            states,
            start,
            end,
            moves,
        } = Draft::of(alloc, fst)?;
        let moves = moves_without(alloc, moves, tag)?;
        Ok(Draft {
            states,
            start,
            end,
            moves,
        })
    }

    /// An equal draft.
    pub fn copy(&self, alloc: Global) -> Result<Draft, Memory>
        ensures { IfOk result (λ made. made ≡ self.now) }
    {
        Ok(Draft {
            states: self.states,
            start: self.start,
            end: self.end,
            moves: copy_moves(alloc, self.moves.as_slice())?,
        })
    }
}
