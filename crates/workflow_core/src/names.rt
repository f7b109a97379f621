//! Names by number.

ghost use Rattle.std.specs.Prelude.{◌≡◌, ◌≤◌, List, ℕ, [], length, OnOk, IfOk};
ghost use Rattle.std.specs.List.{list_any};
ghost use Rattle.std.specs.Str.{bytes_eq};
ghost use Rattle.workflow_core.specs.Names.{number};
ghost use Rattle.workflow_core.specs.code.Names.{with_name};

use indexmap::IndexSet;
use std::alloc::Global;
use std::marker::Model;
use values::{Items, Memory, Text};

/// Distinct names, in order of first appearance.
#[derive(Drop)]
pub struct Names {
    set: IndexSet<Text>,
}

impl Model for Names {
    ghost Value = { List (List ℕ) };

    ghost view = { λ names. names.set.keys };
}

impl Names {
    pub fn new(alloc: Global) -> Names
        ensures { result ≡ [] }
    {
        Names {
            set: IndexSet::new(alloc),
        }
    }

    /// Adds a name at the end, unless it is there.
    pub fn add(&mut self, alloc: Global, name: &Text) -> Result<(), Memory>
        ensures { OnOk result (self.new ≡ with_name self.old name.now) }
    {
        if !self.set.contains(name) {
            self.set.insert(name.copied(alloc)?)?;
        }
        Ok(())
    }

    pub fn contains(&self, name: &Text) -> bool
        ensures { result ≡ list_any (bytes_eq name.now) self.now }
    {
        self.set.contains(name)
    }

    pub fn len(&self) -> usize
        ensures { result ≡ length self.now }
    {
        self.set.len()
    }

    /// A name's place, or the number of names.
    #[tactic(auto, using(crate::proofs::NamesLemmas::number_within, crate::proofs::NamesLemmas::number_found))]
    pub fn number(&self, name: &Text) -> usize
        ensures place { result ≡ number self.now name.now }
        ensures within { result ≤ length self.now }
    {
        self.set.get_index_of(name).unwrap_or(self.set.len())
    }

    pub fn into_items(self, alloc: Global) -> Result<Items<Text>, Memory>
        ensures { IfOk result (λ names. names ≡ self) }
    {
        let Names { set } = self;
        let names: Vec<Text> = set.into_iter().collect(alloc)?;
        Ok(Items::new(names))
    }
}
