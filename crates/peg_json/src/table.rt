//! Which keys an object has.

ghost use Rattle.std.specs.Prelude.{◌≡◌, length, true};
ghost use Rattle.peg_json.specs.code.Table.{rows_of, are_distinct};

use crate::row::KeyRow;

/// The keys of an object: N of them, and none twice.
#[derive(Clone, Copy)]
pub struct KeyTable<const N: usize> {
    pub rows: &'static [KeyRow],
    ghost counted: { length rows.now ≡ N },
    ghost distinct: { are_distinct (rows_of rows.now) ≡ true },
}
