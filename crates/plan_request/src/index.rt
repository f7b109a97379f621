//! Values by name.

ghost use Rattle.std.specs.Prelude.{◌≡◌, List, ℕ, [], OnOk, option_copied};
ghost use Rattle.std.specs.Map.{lookup};
ghost use Rattle.std.specs.Str.{bytes_eq};
ghost use Rattle.plan_request.specs.code.Index.{with_entry};

use indexmap::IndexMap;
use std::alloc::Global;
use std::marker::Model;
use values::{Memory, Text};

/// For each name the first value that it was given, seen as the list of names with their values.
#[derive(Drop)]
pub struct Index<V> {
    values: IndexMap<Text, V>,
}

impl<V> Model for Index<V> {
    ghost Value = { List (List ℕ × V) };

    ghost view = { λ index. index.values.entries };
}

impl<V: Drop> Index<V> {
    pub fn new(alloc: Global) -> Index<V>
        ensures { result ≡ [] }
    {
        Index {
            values: IndexMap::new(alloc),
        }
    }

    /// Gives a name its value, unless it has one.

    pub fn add(&mut self, alloc: Global, name: &Text, value: V) -> Result<(), Memory>
        ensures { OnOk result (self.new ≡ with_entry self.old name.now value) }
    {
        if !self.values.contains_key(name) {
            self.values.insert(name.copied(alloc)?, value)?;
        }
        Ok(())
    }

    pub fn get(&self, name: &Text) -> Option<&V>
        ensures { option_copied result ≡ lookup (bytes_eq name.now) self.now }
    {
        self.values.get(name)
    }
}
