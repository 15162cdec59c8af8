//! Transducers: states with edges that carry a left and a right symbol, drafts of them with empty
//! moves, and the constructions that keep the accepted label strings exactly.
//!
//! A transducer reads the left sides of its edges and writes the right ones. Its meaning is the set
//! of its label strings: lists of pairs of a left and a right symbol, of which one may be missing.
//! Each contract here says what a construction does to that set, as for lttoolbox's letter
//! transducers. A compiled dictionary is four of them, one for each kind of section, with an
//! alphabet and a direction.
//!
//! # Calls
//!
//! - Parts: `Label`, what an edge reads and writes; `Edge`, `Edges`, `Finals`; `compare_labels` and
//!   `compare_edges`, their order.
//! - `Fst`: a transducer; state 0 is its start, and edges and final states ascend. It finds the
//!   edges of a state, and those with one left side.
//! - `Draft`: a transducer with empty moves, one start and one end; `join`, `either`, `star`,
//!   `plus`, `opt` build it up, `of` makes one of a transducer, and `without_right` leaves a tag
//!   out of right sides.
//! - `without_empty`: the transducer of a draft.
//! - `trim`, `trimmed`: without the states that are not reached, or reach no final one.
//! - `empty_cycle`, `empty_side`: whether there is a cycle of edges that read nothing, and whether
//!   a label string with an empty left word is accepted.
//! - `Compiled`: a compiled dictionary, with its `Kind2` of sections and its `Way`.
//!
//! # What is promised
//!
//! - Joining, choosing and repeating drafts, removing empty moves and trimming give exactly the
//!   label strings that they say.
//! - The tests for a cycle of edges with an empty left side and for an empty left word are exact.
//! - A trimmed transducer has no such cycle exactly where some number bounds how many labels with
//!   an empty left side follow one another in its label strings (`empty_cycle_law`).
//! - What a `Compiled` holds is trimmed, without empty cycles and empty sides, and its labels are
//!   plain.
//!
//! # Definitions to read first
//!
//! - `specs/Machines.antt`: `Machine`, `IsMachine`, `edges_of`: what contracts see of a transducer.
//! - `specs/Walks.antt`: `AcceptsLabels`: which label strings it accepts.
//! - `specs/Paths.antt`: `Accepts`, `IsJoined`, `IsEither`, `Repeats`: those of a draft and of what
//!   is built of drafts.
//! - `specs/Trimming.antt`: `IsTrimmed`: each state is reached and reaches a final one.
//! - `specs/Silence.antt`: `HasNoEmptyCycle`, `HasEmptySide`: edges that read nothing.
//! - `specs/Sections.antt`: `IsCompiled`, `section_of`: what a compiled dictionary keeps.
#![tactic(auto)]

mod arcs;
mod compiled;
mod components;
mod covering;
mod cycles;
mod draft;
mod fst;
mod graph;
mod hubs;
mod label;
mod numbering;
mod order;
mod redrafting;
mod removal;
mod rows;
mod silence;
mod trimming;
mod without_right;

pub use compiled::{Compiled, Kind2, Way};
pub use cycles::{empty_cycle, empty_cycle_law};
pub use draft::Draft;
pub use fst::Fst;
pub use label::{Edge, Edges, Finals, Label};
pub use order::{compare_edges, compare_labels};
pub use removal::without_empty;
pub use silence::empty_side;
pub use trimming::{trim, trimmed};
