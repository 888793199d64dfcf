// A pool in its row.
ghost use Rattle.std.specs.Prelude.{◌≡◌, false, not, ◌&&◌, if◌then◌else◌, Some, None};
ghost use Rattle.std.specs.Option.{option_map};
ghost use Rattle.device.specs.Meaning.{differs, size_of, size_counts, remembering, after_bind};
ghost use Rattle.device.specs.Calls.{invalid_sizes, invalid_pool, new_pool};
ghost use Rattle.rows.specs.Pools.{live_pool};

use conversion::bindings::POOL_UPDATE_AFTER_BIND;
use conversion::counts::DescriptorCounts;
use conversion::kinds::Kind;
use device::records::PoolSize;
use device::validity::is_invalid_pool;

#[derive(Clone, Copy)]
pub struct PoolRow {
    pub most: u32,
    pub sizes: DescriptorCounts,
    pub updatable: bool,
    // the counts of the first set that was made in it
    pub first: Option<DescriptorCounts>,
    // whether a later set had others; beside `first` as in the device's meaning, which names both
    pub differed: bool,
}

// Whether a layout or a pool has the flag for update after bind, one bit in both.
fn is_after_bind(flags: u32) -> bool
    ensures { result ≡ after_bind flags }
{
    flags & POOL_UPDATE_AFTER_BIND != 0
}

// Whether a set of a layout with these flags can't be asked of a pool.
pub fn is_unfit(flags: u32, pool: &PoolRow) -> bool
    ensures { result ≡ (after_bind flags && not pool.now.updatable) }
{
    is_after_bind(flags) && !pool.updatable
}

// How many of a kind there are. No type stands twice.
fn size_of(sizes: &[PoolSize], kind: Kind) -> u32
    requires { invalid_sizes sizes.now ≡ false }
    ensures { result ≡ size_of kind sizes.now }
{
    let number = u32::from(kind);
    sizes
        .iter()
        .find(|size| size.descriptor_type == number)
        .map_or(0, |size| size.count)
}

fn size_counts(sizes: &[PoolSize]) -> DescriptorCounts
    requires { invalid_sizes sizes.now ≡ false }
    ensures { result ≡ size_counts sizes.now }
{
    DescriptorCounts::by(|kind| size_of(sizes, kind))
}

fn is_other(first: Option<DescriptorCounts>, counts: &DescriptorCounts) -> bool
    ensures { result ≡ differs first counts.now }
{
    first.is_some_and(|c| c != *counts)
}

impl PoolRow {
    // A new pool, unless it is invalid to ask for.
    pub fn of(most: u32, sizes: &[PoolSize], flags: u32) -> Option<PoolRow>
        ensures { option_map live_pool result ≡ (if invalid_pool most sizes.now then None else Some (new_pool most sizes.now flags)) }
    {
        if is_invalid_pool(most, sizes) {
            return None;
        }
        Some(PoolRow {
            most,
            sizes: size_counts(sizes),
            updatable: is_after_bind(flags),
            first: None,
            differed: false,
        })
    }

    // The pool with one set more made in it.
    pub fn with_set(self, counts: &DescriptorCounts) -> PoolRow
        ensures { live_pool result ≡ remembering (live_pool self) counts.now }
    {
        PoolRow {
            first: self.first.or(Some(*counts)),
            differed: self.differed || is_other(self.first, counts),
            ..self
        }
    }
}
