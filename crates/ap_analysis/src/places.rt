use ap_symbol::Memory;
use std::alloc::Global;

/// How many places are tried for a hash.
const TRIES: usize = 4;

/// The hash of nothing.
pub(crate) const SEED: u32 = 1;

/// So many low bits of a place tell the step; the others are those of the hash.
const NUMBER_BITS: u32 = 18;

/// What a free place holds.
const FREE: u32 = u32::MAX;

/// The hash with a mark more.
pub(crate) fn mix(hash: u32, mark: u32) -> u32 {
    (hash.rotate_left(5) ^ mark).wrapping_mul(2654435769)
}

/// Where a step may be found whose key, or a front of whose key, has some hash: twice the step's
/// number, and one more where it is the whole key; and the highest bits of the hash. It is a hint:
/// what it leads to is compared with the text.
#[derive(Clone, Copy)]
pub(crate) struct Place {
    told: u32,
}

impl Place {
    /// The place of this hash, for the step with this number.
    fn new(hash: u32, number: u32, whole: bool) -> Place {
        let step = (number << 1 | u32::from(whole)) & ((1 << NUMBER_BITS) - 1);
        Place {
            told: (hash >> NUMBER_BITS) << NUMBER_BITS | step,
        }
    }

    fn has(self, hash: u32) -> bool {
        self.told >> NUMBER_BITS == hash >> NUMBER_BITS && self.told != FREE
    }

    pub(crate) fn number(self) -> usize {
        ((self.told & ((1 << NUMBER_BITS) - 1)) >> 1) as usize
    }

    pub(crate) fn is_whole(self) -> bool {
        self.told % 2 == 1
    }
}

/// The places of steps, as many as a power of two.
#[derive(Drop)]
pub(crate) struct Places {
    list: Vec<Place>,
}

impl Places {
    pub(crate) fn new(alloc: Global) -> Places {
        Places {
            list: Vec::new(alloc),
        }
    }

    /// The number of places.
    pub(crate) fn count(&self) -> usize {
        self.list.len()
    }

    /// So many places, all of them free.
    pub(crate) fn free(&mut self, count: usize) -> Result<(), Memory> {
        self.list.clear();
        self.list.reserve_exact(count)?;
        self.list.resize(count, Place { told: FREE })?;
        Ok(())
    }

    /// The number of the place that is tried at this turn.
    fn tried(&self, hash: u32, turn: usize) -> usize {
        (hash as usize).wrapping_add(turn) & self.list.len().wrapping_sub(1)
    }

    /// The place of this hash.
    pub(crate) fn find(&self, hash: u32) -> Option<Place> {
        for turn in 0..TRIES {
            let place = self.list.get(self.tried(hash, turn))?;
            if place.has(hash) {
                return Some(*place);
            }
        }
        None
    }

    /// Writes the place of this hash, for the step with this number: over that of the same hash,
    /// over a free one, or over the first that is tried.
    pub(crate) fn set(&mut self, hash: u32, number: u32, whole: bool) {
        let mut at = self.tried(hash, 0);
        for turn in 0..TRIES {
            let tried = self.tried(hash, turn);
            if let Some(old) = self.list.get(tried) {
                if old.has(hash) || old.told == FREE {
                    at = tried;
                    break;
                }
            }
        }
        if let Some(old) = self.list.get_mut(at) {
            *old = Place::new(hash, number, whole);
        }
    }
}
