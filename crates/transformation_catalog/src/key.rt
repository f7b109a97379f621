//! A transformation as the key of a map.

ghost use Rattle.std.specs.Prelude.{◌≡◌};

use std::hash::{Hash, Hasher};
use std::marker::Model;
use workflow_core::Transformation;

/// A transformation that is borrowed. Two keys are equal where namespace, name and version are.
#[derive(Drop)]
pub struct Key<'a> {
    inner: &'a Transformation,
}

impl<'a> Model for Key<'a> {
    ghost use Rattle.workflow_core.specs.declared.workflow.Transformation as declared;

    ghost Value = { declared.Transformation };

    ghost view = { λ k. k.inner.now };
}

impl<'a> Key<'a> {
    pub fn new(inner: &'a Transformation) -> Key<'a>
        ensures { result ≡ inner.now }
    {
        Key { inner }
    }
}

impl<'a> PartialEq for Key<'a> {
    ghost use Rattle.std.specs.Cmp.{partial_equiv_from_equiv};
    ghost use Rattle.transformation_catalog.specs.Catalog.{same_transformation};
    ghost use Rattle.transformation_catalog.specs.code.Key.{sameness};

    ghost eq = { same_transformation };

    ghost laws = { partial_equiv_from_equiv sameness };

    fn eq(&self, other: &Key<'a>) -> bool {
        self.inner.namespace == other.inner.namespace
            && self.inner.name == other.inner.name
            && self.inner.version == other.inner.version
    }
}

impl<'a> Eq for Key<'a> {
    ghost use Rattle.transformation_catalog.specs.code.Key.{sameness};

    ghost laws = { sameness };
}

impl<'a> Hash for Key<'a> {
    ghost use Rattle.std.specs.Prelude.{◌++◌};
    ghost use Rattle.std.specs.Hash as fed;
    ghost use Rattle.std.proofs.Common.{rules};
    ghost use Rattle.std.specs.Cmp.Rules.{hashing};

    ghost hash_input = { λ t. fed.option fed.str t.namespace ++ fed.str t.name
        ++ fed.option fed.str t.version };

    ghost respects_eq = { Prim.search (hashing, rules) };

    fn hash<H: Hasher>(&self, state: &mut H) {
        self.inner.namespace.hash(state);
        self.inner.name.hash(state);
        self.inner.version.hash(state);
    }
}
