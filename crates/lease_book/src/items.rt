//! Items changed in place. An empty vector takes no memory.

ghost use Rattle.std.specs.Prelude.{◌≡◌, ◌<◌, length, set};

use std::alloc::Global;
use std::mem;
use values::Items;

/// Changes one element.
pub(crate) fn put<T: Copy + Drop>(alloc: Global, items: &mut Items<T>, place: usize, value: T)
    requires { place < length items.old }
    ensures { items.new ≡ set items.old place value }
{
    let mut inner = mem::replace(items, Items::new(Vec::new(alloc))).into_vec();
    inner[place] = value;
    *items = Items::new(inner);
}

/// Makes the elements those of another list, which is as long.
pub(crate) fn overwrite<T: Copy + Drop>(alloc: Global, items: &mut Items<T>, others: &[T])
    requires { length items.old ≡ length others.now }
    ensures { items.new ≡ others.now }
{
    let mut inner = mem::replace(items, Items::new(Vec::new(alloc))).into_vec();
    inner.copy_from_slice(others);
    *items = Items::new(inner);
}
