//! Determinisation of transducers: the same label strings, with at most one edge per state and
//! label.
//!
//! A label counts as a whole, its left and its right side together. So a state may still have
//! several edges with one left symbol, and an ambiguous dictionary stays ambiguous. `ap_min` makes
//! canonical transducers of what comes from here, and `ap_compile` and `ap_trim` take both steps
//! one after the other.
//!
//! # Calls
//!
//! - `determinise`: the transducer with at most one edge per state and label. A state of it is a
//!   set of states to which some labels lead; sets are numbered in the order in which they are met.
//! - `Dfst`: its type, which keeps that fact; `as_fst` and `into_fst` give the transducer itself.
//!
//! # What is promised
//!
//! There are no laws here; the promises are the clauses of the two calls.
//!
//! - `determinise`: the label strings are the same, and at most one edge with a label leaves each
//!   state.
//! - What was trimmed stays trimmed.
//! - Time and memory are not promised. The deterministic form of a section may be very large, as it
//!   may be with expressions; then memory runs out, and the call says so.
//!
//! # Definitions to read first
//!
//! - `specs/Determinism.antt`: `IsDeterministic`: at most one edge with a label leaves a state.
//! - `specs/Subsets.antt`: `AreSubsets`, `IsSetEdge`, `LeadsFrom`: sets of states with numbers, and
//!   the edges between them: the subset construction.
//! - `specs/Exits.antt`: `AddsGroup`, `AddsOuts`: the edges that leave a set, one made for each
//!   label.
//! - `ap_fst/specs/Walks.antt`: `AcceptsLabels`: which label strings a transducer accepts.
#![tactic(auto)]

mod determinising;
mod dfst;
mod ends;
mod groups;
mod places;
mod sets;

pub use determinising::determinise;
pub use dfst::Dfst;
