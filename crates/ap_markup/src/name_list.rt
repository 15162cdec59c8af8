ghost use Rattle.std.specs.Prelude.{◌≡◌, [], OnOk};
ghost use Rattle.ap_markup.specs.NameLists.{has_name, with_name, number_of};

use ap_symbol::Memory;
use indexmap::IndexSet;
use std::alloc::Global;
use std::marker::Model;

/// Names of a tree, each once, in the order in which they are first seen. A name is looked up by
/// its hash. Contracts see the list of the names.
#[derive(Drop)]
pub struct Names<'a> {
    names: IndexSet<&'a [char]>,
}

impl<'a> Model for Names<'a> {
    ghost use Rattle.std.specs.Prelude.{List, ℕ, map};

    ghost Value = { List (List ℕ) };

    ghost view = { λ n. map (λ k. k.now) n.names.keys };
}

impl<'a> Names<'a> {
    /// No names, which take no memory.
    pub fn new(alloc: Global) -> Names<'a>
        ensures { result ≡ [] }
    {
        Names {
            names: IndexSet::new(alloc),
        }
    }

    /// A further name, which goes last where it isn't there.
    pub fn add(&mut self, name: &'a [char]) -> Result<(), Memory>
        ensures { OnOk result (self.new ≡ with_name self.old name.now) }
    {
        self.names.insert(name)?;
        Ok(())
    }

    /// Whether the name is there.
    pub fn has(&self, name: &[char]) -> bool
        ensures { result ≡ has_name self.now name.now }
    {
        self.names.contains(name)
    }

    /// The number of a name, counted from 0.
    pub fn number_of(&self, name: &[char]) -> Option<usize>
        ensures { result ≡ number_of self.now name.now }
    {
        self.names.get_index_of(name)
    }
}
