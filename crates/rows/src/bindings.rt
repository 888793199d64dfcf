// The bindings of a device layout.
ghost use Rattle.std.specs.Prelude.{◌≡◌, ◌^◌, ◌<◌, ◌≤◌, [], length, take, MatchResult};
ghost use Rattle.std.specs.List.{slice_get};
ghost use Rattle.rows.specs.Bindings.{of_kind, kind_count, total_of, start_of};

use conversion::bindings::DeviceBinding;
use conversion::kinds::Kind;
use std::alloc::AllocError;
use std::error::Error;
use std::fmt;

// The most bindings that a device layout can have here: a limit of this device's, and not that of a layout's entries, though both are 32.
pub const MAX_BINDINGS: usize = 32;

// The first `used` of the rows, and how many descriptors they have.
// Rows and no `ArrayVec`, which is not `Copy`, while bindings are.
#[derive(Copy)]
pub struct Bindings {
    rows: [DeviceBinding; MAX_BINDINGS],
    used: usize,
    total: usize,
    ghost fits: { used ≤ 32 },
    ghost is: { total ≡ total_of (take used rows) },
    // 32 counts of 32 bits
    ghost small: { total < 2 ^ 37 },
}

// By hand, since a struct with a ghost field derives no `Default`.
impl Default for Bindings {
    ghost use Rattle.rows.specs.Lists.{list_of};

    ghost is_default = { λ b. list_of b ≡ [] };

    fn default() -> Self {
        Bindings {
            rows: [DeviceBinding::default(); MAX_BINDINGS],
            used: 0,
            total: 0,
        }
    }
}

// By hand, as `Default`, so that an edit can turn it.
impl Clone for Bindings {
    ghost use Rattle.std.specs.Prelude.{⊤};

    ghost is_clone = { λ b c. c ≡ b };

    ghost is_infallible = { λ _. ⊤ };

    fn clone(&self) -> Result<Self, AllocError> {
        Ok(*self)
    }
}

// The list has more than 32 bindings.
#[derive(Clone, Copy, Debug, PartialEq, Eq)]
pub struct TooManyBindings;

impl fmt::Display for TooManyBindings {
    ghost use Rattle.std.specs.Prelude.{Some, codes};

    ghost output = { λ _. Some (codes "a device layout has at most 32 bindings here") };

    fn fmt<W: fmt::Write>(&self, f: &mut fmt::Formatter<W>) -> fmt::Result {
        f.write_str("a device layout has at most 32 bindings here")
    }
}

impl Error for TooManyBindings {}

// A copy of a list, unless it is too long.
impl TryFrom<&[DeviceBinding]> for Bindings {
    ghost use Rattle.rows.specs.Lists.{list_of};

    type Error = TooManyBindings;

    ghost try_from_gives = { λ list r. MatchResult r (λ b. (length list.now ≤ 32) × (list_of b ≡ list.now)) (λ _. 32 < length list.now) };

    fn try_from(list: &[DeviceBinding]) -> Result<Bindings, TooManyBindings> {
        if list.len() > MAX_BINDINGS {
            return Err(TooManyBindings);
        }
        let mut rows = [DeviceBinding::default(); MAX_BINDINGS];
        rows[..list.len()].copy_from_slice(list);
        let total = list.iter().map(|binding| binding.count as usize).sum();
        Ok(Bindings {
            rows,
            used: list.len(),
            total,
        })
    }
}

// What a binding has of a kind.
fn of_kind(binding: &DeviceBinding, kind: Kind) -> u32
    ensures { result ≡ of_kind kind binding.now }
{
    if binding.descriptor_type == u32::from(kind) {
        binding.count
    } else {
        0
    }
}

impl Bindings {
    ghost use Rattle.rows.specs.Lists.{list_of};

    fn list(&self) -> &[DeviceBinding]
        ensures is { result.now ≡ list_of self.now }
        ensures short { length result.now ≤ 32 }
    {
        &self.rows[..self.used]
    }

    pub(crate) fn get(&self, i: usize) -> Option<DeviceBinding>
        ensures { result ≡ slice_get (list_of self.now) i }
    {
        self.list().get(i).copied()
    }

    // How many descriptors of a kind there are.
    pub(crate) fn count_of(&self, kind: Kind) -> u64
        ensures { result ≡ kind_count kind (list_of self.now) }
    {
        self.list()
            .iter()
            .map(|binding| u64::from(of_kind(binding, kind)))
            .sum()
    }

    // How many descriptors there are.
    pub(crate) fn total(&self) -> usize
        ensures { result ≡ total_of (list_of self.now) }
    {
        self.total
    }

    // How many of them stand before binding i.
    pub(crate) fn start(&self, i: usize) -> usize
        ensures { result ≡ start_of (list_of self.now) i }
    {
        self.list()
            .iter()
            .take(i)
            .map(|binding| binding.count as usize)
            .sum()
    }
}
