ghost use Rattle.std.specs.Prelude.{◌≡◌, ◌+◌, ◌<◌, ◌^◌, [], ◌∷◌, ℕ, IfOk};
ghost use Rattle.ap_fst.specs.declared.compiled.Way.TheVariants.{Untold};
ghost use Rattle.ap_command.specs.declared.reading.Manner.TheVariants.{Either};
ghost use Rattle.ap_command.specs.declared.words.Command.TheVariants.{Run};
ghost use Rattle.ap_command.specs.Words.{files_of, way_of, AreWithin};

use crate::words::{Command, Mode};
use ap_dix::Direction;
use ap_fst::Way;
use ap_rules::Form;
use std::alloc::{AllocError, Global};

/// How a file is read.
#[derive(Clone, Copy, Debug, PartialEq, Eq)]
pub(crate) enum Manner {
    /// A dictionary, as it stands.
    Plain,
    /// A dictionary, which is compiled in this direction.
    Made(Direction),
    /// A compiled file that tells this direction or none, where one is told here; or a dictionary,
    /// which is compiled in this direction, and from left to right where none is told.
    Either(Way),
    /// A rule file of this form.
    Ruled(Form),
    /// A rule file of transfer, which is refused where its rules make no chunks.
    Chunking,
    /// Forbidden pairs of tags.
    Paired,
}

/// A file that a command reads: the place of its name among the words, and how it is read.
#[derive(Clone, Copy, Debug, PartialEq, Eq)]
pub(crate) struct Reading {
    pub(crate) place: usize,
    pub(crate) manner: Manner,
}

/// The direction that the file of `lt-proc` has in that mode; Untold where it may have either.
fn way_of(mode: Mode) -> Way
    ensures { result ≡ way_of mode }
{
    match mode {
        Mode::A | Mode::P => Way::Lr,
        Mode::B => Way::Untold,
        Mode::G | Mode::N | Mode::D => Way::Rl,
    }
}

/// The seven files of `run`, of which the first is at this place among the words.
fn files_of_run(alloc: Global, mono: usize) -> Result<Vec<Reading>, AllocError>
    requires { mono + 6 < 2 ^ 64 }
    ensures { (room : ℕ) → IfOk result (λ files. files.items ≡ files_of (Run room mono)) }
{
    Ok(vec![in alloc;
        Reading {
            place: mono,
            manner: Manner::Either(Way::Lr)
        },
        Reading {
            place: mono + 1,
            manner: Manner::Either(Way::Untold)
        },
        Reading {
            place: mono + 2,
            manner: Manner::Chunking
        },
        Reading {
            place: mono + 3,
            manner: Manner::Ruled(Form::Interchunk)
        },
        Reading {
            place: mono + 4,
            manner: Manner::Ruled(Form::Postchunk)
        },
        Reading {
            place: mono + 5,
            manner: Manner::Either(Way::Rl)
        },
        Reading {
            place: mono + 6,
            manner: Manner::Either(Way::Lr)
        },
    ]?)
}

/// One file, by its place among the words.
fn one_file(alloc: Global, place: usize, manner: Manner) -> Result<Vec<Reading>, AllocError>
    ensures { IfOk result (λ files. files.items ≡ record { place = place; manner = manner } ∷ []) }
{
    Ok(vec![in alloc; Reading { place, manner }]?)
}

/// Two files, by their places among the words.
fn two_files(alloc: Global, first: Reading, second: Reading) -> Result<Vec<Reading>, AllocError>
    ensures { IfOk result (λ files. files.items ≡ first ∷ second ∷ []) }
{
    Ok(vec![in alloc; first, second]?)
}

/// A file in which either direction may be told.
fn of_either_way(place: usize) -> Reading
    ensures { result ≡ record { place = place; manner = Either Untold } }
{
    Reading {
        place,
        manner: Manner::Either(Way::Untold),
    }
}

/// The files that a command reads, in order.
pub(crate) fn files_of(alloc: Global, command: Command) -> Result<Vec<Reading>, AllocError>
    requires { AreWithin (2 ^ 64) (files_of command) }
    ensures { IfOk result (λ files. files.items ≡ files_of command) }
{
    match command {
        Command::Proc { mode, file, .. } => one_file(alloc, file, Manner::Either(way_of(mode))),
        Command::Expand { dix } => one_file(alloc, dix, Manner::Plain),
        Command::Comp { way, dix, .. } => one_file(alloc, dix, Manner::Made(way)),
        Command::Trim { mono, bi, .. } => {
            let mono = Reading {
                place: mono,
                manner: Manner::Either(Way::Lr),
            };
            two_files(alloc, mono, of_either_way(bi))
        }
        Command::First
        | Command::Pretransfer
        | Command::Destxt
        | Command::Retxt
        | Command::Work { .. } => Ok(Vec::new(alloc)),
        Command::Choose { pairs } => one_file(alloc, pairs, Manner::Paired),
        Command::TransferAlone { t1x } => one_file(alloc, t1x, Manner::Ruled(Form::Transfer)),
        Command::Transfer { t1x, bidix } => {
            let rules = Reading {
                place: t1x,
                manner: Manner::Ruled(Form::Transfer),
            };
            two_files(alloc, rules, of_either_way(bidix))
        }
        Command::Interchunk { t2x } => one_file(alloc, t2x, Manner::Ruled(Form::Interchunk)),
        Command::Compound { file, .. } => one_file(alloc, file, Manner::Either(way_of(Mode::A))),
        Command::Postchunk { t3x } => one_file(alloc, t3x, Manner::Ruled(Form::Postchunk)),
        Command::Run { mono, .. } => files_of_run(alloc, mono),
        Command::Text { mono, .. } => files_of_run(alloc, mono),
    }
}
