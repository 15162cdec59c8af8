ghost use Rattle.std.specs.Prelude.{◌≡◌, ◌≤◌, ◌||◌, ◌↔◌, List, ℕ, None, Some, length, IfOk, IfSome, IsErrOf, OnErr, OnOk, IsTrue, is_none, option_map};
ghost use Rattle.ap_outside.specs.Causes.{HasLoadCause, SparesStoreFaults, raised};
ghost use Rattle.ap_outside.specs.Held.{content_of, faults_of, place_of, ShareCount};
ghost use Rattle.ap_outside.specs.Numbered.{next_call, is_listed};
ghost use Rattle.ap_outside.specs.StoreCauses.{HasStoreCause, SparesLoadFaults};
ghost use Rattle.ap_outside.specs.Told.{Loads, IsTooLong, Stores, StoresSome, with_held};

use crate::files::{Files, LoadRefusal, StoreRefusal};
use crate::mem_file::{MemFile, place, rewrite};
use ap_symbol::Memory;
use std::alloc::Global;

/// Files in memory. The calls that it lists fail, numbered from 1, loads and stores together. Each
/// file has a count of faults of its own, kept at its place, and all names that aren't there share
/// one.
#[derive(Debug, Drop)]
pub struct MemFiles {
    alloc: Global,
    files: Vec<MemFile>,
    faults: Vec<u64>,
    absent_faults: u64,
    store_faults: u64,
    failing: Vec<u64>,
    calls: u64,
    ghost places: { length faults.items ≡ length files.items },
}

impl MemFiles {
    /// No files and no faults. The loads and stores whose numbers `failing` lists fail, numbered
    /// together from 1.
    pub fn new(alloc: Global, failing: Vec<u64>) -> MemFiles
        ensures contents { ⟦<MemFiles as Files>⟧.contents result ≡ Some (λ _. None) }
        ensures load_faults { ⟦<MemFiles as Files>⟧.load_faults result ≡ (λ _. 0) }
        ensures store_faults { ⟦<MemFiles as Files>⟧.store_faults result ≡ 0 }
        ensures settings { (result.failing ≡ failing) × (result.calls ≡ 0) }
    {
        MemFiles {
            alloc,
            files: Vec::new(alloc),
            faults: Vec::new(alloc),
            absent_faults: 0,
            store_faults: 0,
            failing,
            calls: 0,
        }
    }

    /// Makes the file `name` have exactly these bytes, whether or not it was there. It is no call
    /// that `failing` numbers. A file that is made begins with the count of faults that the names
    /// that aren't there share. After want of memory everything is as it was.
    pub fn add(&mut self, name: &str, bytes: &[u8]) -> Result<(), Memory>
        ensures stored { OnOk result
            (Stores (⟦<MemFiles as Files>⟧.contents self.old)
            (⟦<MemFiles as Files>⟧.contents self.new) name.now bytes.now) }
        ensures unchanged { OnErr result (⟦<MemFiles as Files>⟧.contents self.new
            ≡ ⟦<MemFiles as Files>⟧.contents self.old) }
        ensures load_faults { ⟦<MemFiles as Files>⟧.load_faults self.new
            ≡ ⟦<MemFiles as Files>⟧.load_faults self.old }
        ensures store_faults { ⟦<MemFiles as Files>⟧.store_faults self.new
            ≡ ⟦<MemFiles as Files>⟧.store_faults self.old }
        ensures settings { (self.new.failing ≡ self.old.failing)
            × (self.new.calls ≡ self.old.calls) }
    {
        let mut copy = Vec::new(self.alloc);
        copy.extend_from_slice(bytes)?;
        match place(&self.files, name) {
            Some(at) => {
                rewrite(&mut self.files, name, at, copy);
                Ok(())
            }
            None => self.append(name, copy),
        }
    }

    fn append(&mut self, name: &str, bytes: Vec<u8>) -> Result<(), Memory>
        requires { place_of self.old.files.items name.now ≡ None }
        ensures stored { OnOk result (content_of self.new.files.items
            ≡ with_held (content_of self.old.files.items) name.now (Some bytes.items)) }
        ensures unchanged { OnErr result (content_of self.new.files.items
            ≡ content_of self.old.files.items) }
        ensures load_faults { faults_of self.new.files.items self.new.faults.items
            self.new.absent_faults ≡ faults_of self.old.files.items self.old.faults.items
            self.old.absent_faults }
        ensures store_faults { self.new.store_faults ≡ self.old.store_faults }
        ensures settings { (self.new.failing ≡ self.old.failing)
            × (self.new.calls ≡ self.old.calls) }
    {
        let name = String::from_str(self.alloc, name)?;
        let count = self.faults.len();
        self.faults.push(self.absent_faults)?;
        if self.files.push(MemFile { name, bytes }).is_err() {
            self.faults.truncate(count);
            return Err(Memory);
        }
        Ok(())
    }

    /// The bytes of the file `name`, or None exactly where no file has that name.
    pub fn get(&self, name: &str) -> Option<&[u8]>
        ensures { Some (option_map (λ bytes. bytes.now) result)
            ≡ option_map (λ at. at name.now) (⟦<MemFiles as Files>⟧.contents self.now) }
    {
        let at = place(&self.files, name)?;
        Some(self.files[at].bytes.as_slice())
    }
}

impl Files for MemFiles {
    ghost contents = { λ s. Some (content_of s.files.items) };

    ghost load_faults = { λ s. faults_of s.files.items s.faults.items s.absent_faults };

    ghost store_faults = { λ s. s.store_faults };

    /// It fails exactly where its number is listed or the name isn't there, and then the count of
    /// that name rises, and no other's.
    fn load(&mut self, alloc: Global, name: &str, most: u64) -> Result<Vec<u8>, LoadRefusal>
        ensures most { IfOk result (λ bytes. length bytes.items ≤ most) }
        ensures loaded { IfOk result
            (λ bytes. Loads (Some (content_of self.old.files.items)) name.now most bytes.items) }
        ensures too_long { IsErrOf result LoadRefusal.TooLong →
            IsTooLong (Some (content_of self.old.files.items)) name.now most }
        ensures kept { Some (content_of self.new.files.items)
            ≡ Some (content_of self.old.files.items) }
        ensures cause { HasLoadCause
            (faults_of self.old.files.items self.old.faults.items self.old.absent_faults)
            (faults_of self.new.files.items self.new.faults.items self.new.absent_faults)
            name.now result }
        ensures store_cause { SparesStoreFaults self.old.store_faults self.new.store_faults result }
        ensures raised { IsErrOf result LoadRefusal.Failed →
            faults_of self.new.files.items self.new.faults.items self.new.absent_faults name.now
            ≡ raised (faults_of self.old.files.items self.old.faults.items
            self.old.absent_faults name.now) }
        ensures others { (other : List ℕ) →
            (ShareCount self.old.files.items name.now other → ⊥) →
            faults_of self.new.files.items self.new.faults.items self.new.absent_faults other
            ≡ faults_of self.old.files.items self.old.faults.items self.old.absent_faults other }
        ensures listed { IsErrOf result LoadRefusal.Failed
            ↔ IsTrue (is_none (content_of self.old.files.items name.now)
            || is_listed self.old.failing.items self.old.calls) }
        ensures memory { IsErrOf result LoadRefusal.Memory →
            IfSome (content_of self.old.files.items name.now) (λ bytes. length bytes ≤ most) }
        ensures settings { (self.new.failing ≡ self.old.failing)
            × (self.new.calls ≡ next_call self.old.calls) }
    {
        self.calls = self.calls.saturating_add(1);
        let Some(at) = place(&self.files, name) else {
            self.absent_faults = self.absent_faults.saturating_add(1);
            return Err(LoadRefusal::Failed);
        };
        if self.failing.contains(&self.calls) {
            self.faults[at] = self.faults[at].saturating_add(1);
            return Err(LoadRefusal::Failed);
        }
        let bytes = &self.files[at].bytes;
        if bytes.len() as u64 > most {
            return Err(LoadRefusal::TooLong);
        }
        let mut copy = Vec::new(alloc);
        match copy.extend_from_slice(bytes.as_slice()) {
            Ok(()) => Ok(copy),
            Err(_) => Err(LoadRefusal::Memory),
        }
    }

    /// It fails exactly where its number is listed, and then every file holds what it held.
    fn store(&mut self, name: &str, bytes: &[u8]) -> Result<(), StoreRefusal>
        ensures stored { OnOk result
            (Stores (Some (content_of self.old.files.items))
            (Some (content_of self.new.files.items)) name.now bytes.now) }
        ensures failed { IsErrOf result StoreRefusal.Failed →
            StoresSome (Some (content_of self.old.files.items))
            (Some (content_of self.new.files.items)) name.now }
        ensures memory { IsErrOf result StoreRefusal.Memory → Some (content_of self.new.files.items)
            ≡ Some (content_of self.old.files.items) }
        ensures cause { HasStoreCause self.old.store_faults self.new.store_faults result }
        ensures load_cause { SparesLoadFaults
            (faults_of self.old.files.items self.old.faults.items self.old.absent_faults)
            (faults_of self.new.files.items self.new.faults.items self.new.absent_faults) result }
        ensures raised { IsErrOf result StoreRefusal.Failed →
            self.new.store_faults ≡ raised self.old.store_faults }
        ensures listed { IsErrOf result StoreRefusal.Failed
            ↔ IsTrue (is_listed self.old.failing.items self.old.calls) }
        ensures kept { OnErr result (Some (content_of self.new.files.items)
            ≡ Some (content_of self.old.files.items)) }
        ensures settings { (self.new.failing ≡ self.old.failing)
            × (self.new.calls ≡ next_call self.old.calls) }
    {
        self.calls = self.calls.saturating_add(1);
        if self.failing.contains(&self.calls) {
            self.store_faults = self.store_faults.saturating_add(1);
            return Err(StoreRefusal::Failed);
        }
        match self.add(name, bytes) {
            Ok(()) => Ok(()),
            Err(Memory) => Err(StoreRefusal::Memory),
        }
    }
}
