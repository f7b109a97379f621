//! A row of a table: a key, and what its value has to be.

/// What a value has to be.
#[derive(Clone, Copy, PartialEq, Eq)]
pub enum Kind {
    Name,
    Text,
    Number,
    Flag,
    List,
    Object,
    Digits,
    Any,
}

/// A key of an object.
#[derive(Clone, Copy)]
pub struct KeyRow {
    pub key: &'static str,
    pub kind: Kind,
    pub required: bool,
}
