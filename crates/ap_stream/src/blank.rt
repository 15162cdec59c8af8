ghost use Rattle.std.specs.Prelude.{◌≡◌, ◌++◌, ◌∷◌, [], length, OnOk, OnErr, IfOk, slice_get};
ghost use Rattle.std.specs.Option.{option_copied};

use ap_symbol::Memory;
use smallvec::SmallVec;
use std::alloc::Global;
use std::marker::Model;

/// The bytes of a run of white space and superblanks. Up to sixteen bytes stand in the value
/// itself, so that a space takes no memory.
#[derive(Debug, Drop)]
pub struct Blank {
    bytes: SmallVec<u8, 16>,
}

impl Model for Blank {
    ghost use Rattle.std.specs.Prelude.{List, ℕ};

    ghost Value = { List ℕ };

    ghost view = { λ b. b.bytes.items };
}

impl Blank {
    pub fn new(alloc: Global) -> Blank
        ensures { result ≡ [] }
    {
        Blank {
            bytes: SmallVec::new(alloc),
        }
    }

    /// The blank with these bytes. It takes no memory.
    pub fn from_vec(bytes: Vec<u8>) -> Blank
        ensures { result ≡ bytes.items }
    {
        Blank {
            bytes: SmallVec::from_vec(bytes),
        }
    }

    /// The blank with a copy of these bytes. The error means want of memory.
    pub fn from_slice(alloc: Global, bytes: &[u8]) -> Result<Blank, Memory>
        ensures { IfOk result (λ blank. blank ≡ bytes.now) }
    {
        Ok(Blank {
            bytes: SmallVec::from_slice(alloc, bytes)?,
        })
    }

    /// Appends a byte. After a refusal the blank is unchanged.
    pub fn push(&mut self, byte: u8) -> Result<(), Memory>
        ensures ok { OnOk result (self.new ≡ self.old ++ byte ∷ []) }
        ensures err { OnErr result (self.new ≡ self.old) }
    {
        match self.bytes.push(byte) {
            Ok(()) => Ok(()),
            Err(_) => Err(Memory),
        }
    }

    /// The number of its bytes.
    pub fn len(&self) -> usize
        ensures { result ≡ length self.now }
    {
        self.bytes.len()
    }

    /// The byte at this place, counted from 0, or none where there is none.
    pub fn get(&self, at: usize) -> Option<&u8>
        ensures { option_copied result ≡ slice_get self.now at }
    {
        self.bytes.as_slice().get(at)
    }

    pub fn as_slice(&self) -> &[u8]
        ensures { result.now ≡ self.now }
    {
        self.bytes.as_slice()
    }
}
