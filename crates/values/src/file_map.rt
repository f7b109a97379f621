//! Bytes under names.

ghost use Rattle.std.specs.Prelude.{◌≡◌, ℕ, List, Option, None, option_map, OnOk, OnErr, Decides, is_some};
ghost use Rattle.std.specs.FinMap as map;

use crate::memory::Memory;
use std::alloc::{AllocError, Global};
use std::collections::BTreeMap;
use std::marker::Model;

/// Files by name, seen as the finite map that they are.
#[derive(Drop)]
pub struct FileMap {
    files: BTreeMap<String, Vec<u8>>,
}

impl Model for FileMap {
    ghost use Rattle.values.specs.FileMap.{Files};
    ghost use Rattle.values.specs.code.FileMap.{files_of};
    ghost use Rattle.std.specs.Coded.{coded_ℕ, coded_list};
    ghost use Rattle.std.specs.FinMap as map;

    ghost Value = { Files };

    ghost coded = { map.code (coded_list coded_ℕ) (coded_list coded_ℕ) };

    ghost view = { λ m. files_of m.files.entries };
}

impl FileMap {
    /// No file.
    pub fn new(alloc: Global) -> FileMap
        ensures { result ≡ map.empty }
    {
        FileMap {
            files: BTreeMap::new(alloc),
        }
    }

    /// The bytes of a name.
    #[tactic(auto, using(crate::proofs::FileMapLemmas::get_files_of))]
    pub fn get(&self, name: &str) -> Option<&[u8]>
        ensures { option_map (λ b. b.now) result ≡ map.get self.now name.now }
    {
        match self.files.get(name) {
            Some(bytes) => Some(bytes.as_slice()),
            None => None,
        }
    }

    /// Sets the bytes of a name, in place of earlier ones. A refusal leaves all as it was.
    pub fn insert(&mut self, alloc: Global, name: &str, bytes: &[u8]) -> Result<(), Memory>
        ensures ok { OnOk result (self.new ≡ map.insert self.old name.now bytes.now) }
        ensures err { OnErr result (self.new ≡ self.old) }
    {
        let name = String::from_str(alloc, name)?;
        let bytes = Vec::from_slice(alloc, bytes)?;
        self.files.insert(name, bytes)?;
        Ok(())
    }

    /// Takes a name out, and tells whether it was there.
    pub fn remove(&mut self, name: &str) -> bool
        ensures removed { self.new ≡ map.remove self.old name.now }
        ensures was { result ≡ is_some (map.get self.old name.now) }
    {
        let was = self.get(name).is_some();
        self.files.remove(name);
        was
    }

    pub fn contains(&self, name: &str) -> bool
        ensures { result ≡ is_some (map.get self.now name.now) }
    {
        self.get(name).is_some()
    }

    pub fn is_empty(&self) -> bool
        ensures { Decides result ((name : List ℕ) → map.get self.now name ≡ None) }
    {
        self.files.is_empty()
    }
}

impl Clone for FileMap {
    ghost is_clone = { λ s t. t ≡ s };

    fn clone(&self) -> Result<FileMap, AllocError> {
        let files = self.files.clone()?;
        Ok(FileMap { files })
    }
}
