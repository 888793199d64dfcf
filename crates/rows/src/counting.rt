// What the rows add up to.
ghost use Rattle.std.specs.Prelude.{◌≡◌, ℕ, ◌+◌, ◌^◌, ◌<◌, [], replicate, None, nat_lt};
ghost use Rattle.std.specs.List.{slice_get};
ghost use Rattle.conversion.specs.Counts.{count_of, counts_by};
ghost use Rattle.rows.specs.Bindings.{kind_count, total_of, start_of, at_most};
ghost use Rattle.rows.specs.Pools.{live_pool};
ghost use Rattle.rows.specs.Holdings.{names, is_of_pool, held_of, is_named, is_free_layout_row, free_layout_row, bindings_at, in_row, sets_in, used_in, full_at};

use crate::bindings::Bindings;
use crate::holdings::{Holdings, LAYOUT_ROWS, SetRow};
use crate::pools::PoolRow;
use crate::slots::Slot;
use crate::table::Table;
use conversion::bindings::DeviceBinding;
use conversion::counts::DescriptorCounts;
use conversion::kinds::{KINDS, Kind};

// Two tests and no function over a closure, so that each has an equation for its contract.
fn is_of_layout(slot: Option<Slot<SetRow>>, layout: usize) -> bool
    ensures { result ≡ names layout slot }
{
    slot.is_some_and(|set| set.value.layout == layout)
}

pub fn is_of_pool(slot: Option<Slot<SetRow>>, pool: u64) -> bool
    ensures { result ≡ is_of_pool pool slot }
{
    slot.is_some_and(|set| set.value.pool == pool)
}

fn at_most(n: u64, most: u32) -> u32
    ensures { result ≡ at_most n most }
{
    n.min(u64::from(most)) as u32
}

impl Holdings {
    pub fn new() -> Holdings
        ensures layouts { result.layouts.rows ≡ replicate 64 None }
        ensures bindings { (j : ℕ) → bindings_at result j ≡ [] }
        ensures pools { result.pools.rows ≡ replicate 128 None }
        ensures sets { result.sets.rows ≡ replicate 1024 None }
    {
        Holdings {
            layouts: Table::new(),
            bindings: [Bindings::default(); LAYOUT_ROWS],
            pools: Table::new(),
            sets: Table::new(),
        }
    }

    // Whether a set of the layout in a row lives.
    fn is_named(&self, layout: usize) -> bool
        ensures { result ≡ is_named self.now layout }
    {
        self.sets.rows.iter().any(|row| is_of_layout(*row, layout))
    }

    fn is_free_layout_row(&self, j: usize) -> bool
        ensures { result ≡ is_free_layout_row self.now j }
    {
        self.layouts.slot(j).is_none() && !self.is_named(j)
    }

    // The first row for a layout: it has none, and no set of one lives.
    pub fn free_layout_row(&self) -> Option<usize>
        ensures { result ≡ free_layout_row self.now }
    {
        (0..LAYOUT_ROWS).find(|&j| self.is_free_layout_row(j))
    }
}

impl Holdings {
    // How many descriptors of a kind the layout in a row has. With `total` and `start` three of one form: a function over the figure would be as long as each.
    fn kind_count(&self, layout: usize, kind: Kind) -> u64
        ensures { result ≡ kind_count kind (bindings_at self.now layout) }
    {
        self.bindings
            .get(layout)
            .map_or(0, |bindings| bindings.count_of(kind))
    }

    // How many sets live in a pool.
    fn sets_in(&self, pool: u64) -> u64
        ensures { result ≡ sets_in self.now pool }
    {
        self.sets
            .rows
            .iter()
            .filter(|row| is_of_pool(**row, pool))
            .count() as u64
    }

    // What the set in a row has of a kind, if it lives in the pool.
    fn used_by(&self, row: Option<Slot<SetRow>>, pool: u64, kind: Kind) -> u64
        ensures { result ≡ in_row pool (λ s. kind_count kind s.bindings) (held_of self.now.bindings row) }
    {
        row.filter(|set| set.value.pool == pool)
            .map_or(0, |set| self.kind_count(set.value.layout, kind))
    }

    fn used_in(&self, pool: u64, kind: Kind) -> u64
        ensures { result ≡ used_in self.now pool kind }
    {
        self.sets
            .rows
            .iter()
            .map(|row| self.used_by(*row, pool, kind))
            .sum()
    }

    fn lacks(&self, handle: u64, pool: &PoolRow, layout: usize, kind: Kind) -> bool
        ensures { result ≡ nat_lt (count_of pool.now.sizes kind) (used_in self.now handle kind + kind_count kind (bindings_at self.now layout)) }
    {
        u64::from(pool.sizes.of_kind(kind))
            < self.used_in(handle, kind) + self.kind_count(layout, kind)
    }

    // Whether a pool has no room for one more set of the layout in a row.
    pub fn is_full(&self, handle: u64, pool: &PoolRow, layout: usize) -> bool
        ensures { result ≡ full_at self.now handle (live_pool pool.now) layout }
    {
        u64::from(pool.most) <= self.sets_in(handle)
            || KINDS
                .iter()
                .any(|&kind| self.lacks(handle, pool, layout, kind))
    }
}

impl Holdings {
    // How many descriptors the layout in a row has.
    pub fn total(&self, layout: usize) -> usize
        ensures is { result ≡ total_of (bindings_at self.now layout) }
        ensures small { result < 2 ^ 37 }
    {
        self.bindings
            .get(layout)
            .map_or(0, |bindings| bindings.total())
    }

    // How many of them stand before binding i.
    pub fn start(&self, layout: usize, i: usize) -> usize
        ensures is { result ≡ start_of (bindings_at self.now layout) i }
        ensures small { result < 2 ^ 37 }
    {
        self.bindings
            .get(layout)
            .map_or(0, |bindings| bindings.start(i))
    }

    // Binding i of the layout in a row.
    pub fn binding(&self, layout: usize, i: usize) -> Option<DeviceBinding>
        ensures { result ≡ slice_get (bindings_at self.now layout) i }
    {
        self.bindings.get(layout)?.get(i)
    }

    // Its counts by kind, held to some others, so that they fit.
    pub fn counts(&self, layout: usize, most: &DescriptorCounts) -> DescriptorCounts
        ensures { result ≡ counts_by (λ k. at_most (kind_count k (bindings_at self.now layout)) (count_of most.now k)) }
    {
        DescriptorCounts::by(|kind| at_most(self.kind_count(layout, kind), most.of_kind(kind)))
    }
}
