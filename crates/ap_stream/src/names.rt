ghost use Rattle.std.specs.Prelude.{◌≡◌, ◌++◌, ◌∷◌, List, ℕ, true, IfOk, IfSome};
ghost use Rattle.std.specs.Str.{bytes_eq};
ghost use Rattle.ap_stream.specs.UnitBytes.{Heads};

use ap_symbol::{Memory, TagName};
use std::alloc::Global;

/// The names of tags that were read last, each at a place that its bytes tell: at most 64. They are
/// a hint alone: a name that is read again shares the text of the one before, and takes no memory.
#[derive(Drop)]
pub struct Names {
    places: Vec<Option<TagName>>,
}

/// How many names are kept.
const NAMES_MAX: usize = 64;

/// The place of a name, which ends before a `>` or with the bytes.
fn place_of(bytes: &[u8]) -> usize {
    let mut place: usize = 0;
    for b in bytes {
        if *b == b'>' {
            return place % NAMES_MAX;
        }
        place = place.wrapping_mul(31).wrapping_add(usize::from(*b));
    }
    place % NAMES_MAX
}

fn is_same(a: &[u8], b: &[u8]) -> bool
    ensures { result ≡ bytes_eq a.now b.now }
{
    a == b
}

/// Whether the bytes begin with a name and `>`.
fn begins(bytes: &[u8], name: &[u8]) -> bool
    ensures { result ≡ true → (x : List ℕ) × (bytes.now ≡ name.now ++ 62 ∷ x) }
{
    let size = name.len();
    if bytes.len() <= size {
        return false;
    }
    if bytes[size] != 62 {
        return false;
    }
    is_same(&bytes[..size], name)
}

impl Names {
    /// No names, which takes no memory.
    pub fn new(alloc: Global) -> Names {
        Names {
            places: Vec::new(alloc),
        }
    }

    /// The kept name that these bytes begin with, before a `>`.
    pub(crate) fn find(&self, bytes: &[u8]) -> Result<Option<TagName>, Memory>
        ensures { IfOk result (λ found. IfSome found (Heads bytes.now)) }
    {
        let place = match self.places.get(place_of(bytes)) {
            Some(place) => place,
            None => return Ok(None),
        };
        match place {
            None => Ok(None),
            Some(name) => {
                if begins(bytes, name.text().as_bytes()) {
                    Ok(Some(name.copy()?))
                } else {
                    Ok(None)
                }
            }
        }
    }

    /// Keeps a name, if there is memory for it.
    pub(crate) fn keep(&mut self, name: &TagName) {
        if self.places.is_empty() {
            for _ in 0..NAMES_MAX {
                if self.places.push(None).is_err() {
                    return;
                }
            }
        }
        let at = place_of(name.text().as_bytes());
        match name.copy() {
            Ok(copy) => {
                if at < self.places.len() {
                    self.places[at] = Some(copy);
                }
            }
            Err(_) => {}
        }
    }
}
