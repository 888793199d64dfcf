// All rows of a device.
ghost use Rattle.std.specs.Prelude.{◌≡◌, length};

use crate::bindings::Bindings;
use crate::pools::PoolRow;
use crate::table::Table;

pub const LAYOUT_ROWS: usize = 64;

pub const POOL_ROWS: usize = 128;

pub const SET_ROWS: usize = 1024;

// A set, by its pool's handle and its layout's row.
#[derive(Clone, Copy)]
pub struct SetRow {
    pub pool: u64,
    pub layout: usize,
}

// Fixed tables, since nothing in a device call may allocate.
// A live layout has its flags in its row. The bindings beside them stay while a set of it lives, so they are no part of it.
#[derive(Drop)]
pub struct Holdings {
    pub layouts: Table<u32, LAYOUT_ROWS>,
    pub bindings: [Bindings; LAYOUT_ROWS],
    pub pools: Table<PoolRow, POOL_ROWS>,
    pub sets: Table<SetRow, SET_ROWS>,
    ghost whole: { length bindings ≡ 64 },
}
