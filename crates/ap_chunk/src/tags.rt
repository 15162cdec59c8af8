ghost use Rattle.std.specs.Prelude.{◌≡◌, ◌<◌, ◌≤◌, length, drop, IfSome, MatchOption, slice_get, false};
ghost use Rattle.std.specs.Option.{option_copied};
ghost use Rattle.ap_chunk.specs.Tests.{take_tags};
ghost use Rattle.ap_chunk.specs.Tried.{IsTried, meeting_of, steps_left};

use ap_symbol::{Symbol, fits};

/// What the next part of an item's tags is for the next tag of a word.
#[derive(Clone, Copy, Debug, PartialEq, Eq)]
enum Meeting {
    /// A star, which takes one or more.
    Many,
    /// An equal tag.
    Fits,
    /// Another tag, or no part.
    Fails,
}

/// The last star that was met: the place of the part behind it, and the place of the tag from
/// which on the parts behind it are tried.
#[derive(Clone, Copy, Debug)]
struct LastStar {
    part: usize,
    tag: usize,
}

/// How far the parts of an item were tried on a word's tags: the places of the next part and of
/// the next tag, and the last star.
#[derive(Clone, Copy, Debug)]
struct Trial {
    part: usize,
    tag: usize,
    star: Option<LastStar>,
}

/// The part of an item's tags at a place counted from 0; None exactly where there are not so many.
fn part_at(parts: &[Symbol], at: usize) -> Option<&Symbol>
    ensures value { option_copied result ≡ slice_get parts.now at }
    ensures within { IfSome result (λ _. at < length parts.now) }
{
    parts.get(at)
}

fn compare(part: Option<&Symbol>, tag: &Symbol) -> Meeting
    ensures { result ≡ meeting_of (option_copied part.entry) tag.now }
{
    match part {
        None => Meeting::Fails,
        Some(Symbol::Star) => Meeting::Many,
        Some(part) => {
            if fits(part, tag, true) {
                Meeting::Fits
            } else {
                Meeting::Fails
            }
        }
    }
}

/// The trial after the last star takes one tag more; None where there was no star.
fn go_back(parts: &[Symbol], tags: &[Symbol], trial: Trial) -> Option<Trial>
    requires tried { IsTried parts.now tags.now trial }
    requires within { trial.tag < length tags.now }
    requires fails { take_tags (drop trial.part parts.now) (drop trial.tag tags.now) ≡ false }
    ensures { MatchOption result (take_tags parts.now tags.now ≡ false)
        (λ next. IsTried parts.now tags.now next
        × (steps_left (length tags.now) next < steps_left (length tags.now) trial)) }
{
    match trial.star {
        None => None,
        Some(star) => {
            let tag = star.tag + 1;
            Some(Trial {
                part: star.part,
                tag,
                star: Some(LastStar {
                    part: star.part,
                    tag,
                }),
            })
        }
    }
}

/// The trial after one more part and one more tag, or after a way back; None where the parts
/// don't take the tags.
fn step(parts: &[Symbol], tags: &[Symbol], trial: Trial) -> Option<Trial>
    requires tried { IsTried parts.now tags.now trial }
    requires within { trial.tag < length tags.now }
    ensures { MatchOption result (take_tags parts.now tags.now ≡ false)
        (λ next. IsTried parts.now tags.now next
        × (steps_left (length tags.now) next < steps_left (length tags.now) trial)) }
{
    match compare(part_at(parts, trial.part), &tags[trial.tag]) {
        Meeting::Many => {
            let part = trial.part + 1;
            let tag = trial.tag + 1;
            Some(Trial {
                part,
                tag,
                star: Some(LastStar { part, tag }),
            })
        }
        Meeting::Fits => Some(Trial {
            part: trial.part + 1,
            tag: trial.tag + 1,
            star: trial.star,
        }),
        Meeting::Fails => go_back(parts, tags, trial),
    }
}

/// Whether the parts of an item, tags and stars, take these tags, all of them and in order. A star
/// takes as few as it can, and one more where what stands behind it doesn't fit; where a further
/// star is met, no earlier one is gone back to.
pub(crate) fn take_tags(parts: &[Symbol], tags: &[Symbol]) -> bool
    ensures { result ≡ take_tags parts.now tags.now }
{
    let mut trial = Trial {
        part: 0,
        tag: 0,
        star: None,
    };
    while trial.tag < tags.len() {
        match step(parts, tags, trial) {
            None => return false,
            Some(next) => trial = next,
        }
    }
    parts.len() <= trial.part
}
