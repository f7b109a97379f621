//! Changes that a store has made.

ghost use Rattle.std.specs.Prelude.{◌≡◌, ◌++◌, ◌∷◌, [], List, OnOk, OnErr};

use std::alloc::{AllocError, Global};
use std::marker::Model;
use values::{Memory, Text};

/// A change of a store.
#[derive(Drop)]
pub enum Operation {
    /// A site, a file's name and its length in bytes.
    Publish(Text, Text, u64),
    /// A file's name and its length in bytes.
    Deliver(Text, u64),
    /// A site and a file's name.
    Remove(Text, Text),
}

impl Clone for Operation {
    ghost is_clone = { λ s t. t ≡ s };

    fn clone(&self) -> Result<Operation, AllocError> {
        match self {
            Operation::Publish(site, name, length) => {
                Ok(Operation::Publish(site.clone()?, name.clone()?, *length))
            }
            Operation::Deliver(name, length) => Ok(Operation::Deliver(name.clone()?, *length)),
            Operation::Remove(site, name) => Ok(Operation::Remove(site.clone()?, name.clone()?)),
        }
    }
}

/// The changes that a store has made, in order.
#[derive(Drop)]
pub struct Operations {
    inner: Vec<Operation>,
}

impl Model for Operations {
    ghost use Rattle.std.specs.Prelude.{List};
    ghost use Rattle.outside.specs.declared.operation.Operation.{Operation};

    ghost Value = { List Operation };

    ghost view = { λ s. s.inner.items };
}

impl Operations {
    ghost use Rattle.outside.specs.declared.operation.Operation.{Operation};

    /// No change.
    pub fn new(alloc: Global) -> Operations
        ensures { result ≡ [] }
    {
        Operations {
            inner: Vec::new(alloc),
        }
    }

    /// Adds a change at the end. A refusal leaves all as it was.
    pub fn push(&mut self, operation: Operation) -> Result<(), Memory>
        ensures ok { OnOk result (self.new ≡ self.old ++ operation ∷ []) }
        ensures err { OnErr result (self.new ≡ self.old) }
    {
        self.inner.push(operation)?;
        Ok(())
    }

    /// Takes the last one back.
    pub(crate) fn pop(&mut self)
        ensures { (xs : List Operation) (x : Operation) → self.old ≡ xs ++ x ∷ [] → self.new ≡ xs }
    {
        self.inner.pop();
    }

    pub fn as_slice(&self) -> &[Operation]
        ensures { result.now ≡ self.now }
    {
        &self.inner
    }
}

impl Clone for Operations {
    ghost is_clone = { λ s t. t ≡ s };

    fn clone(&self) -> Result<Operations, AllocError> {
        let inner = self.inner.clone()?;
        Ok(Operations { inner })
    }
}
