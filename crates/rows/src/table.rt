// A table of rows.
ghost use Rattle.std.specs.Prelude.{◌≡◌, length};
ghost use Rattle.rows.specs.Slots.{Differ};

use crate::slots::Slot;

// Rows by their handles; no handle stands in two. A fixed table and no map, since nothing in a device call may allocate.
#[derive(Drop)]
pub struct Table<T, const N: usize> {
    pub(crate) rows: [Option<Slot<T>>; N],
    ghost whole: { length rows ≡ N },
    ghost differ: { Differ rows },
}
