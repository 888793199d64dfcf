// All that the counting device has.
ghost use Rattle.std.specs.Prelude.{◌≡◌, ℕ, ◌^◌, ◌<◌};
ghost use Rattle.segments.specs.Segments.{length_at};
ghost use Rattle.rows.specs.Holdings.{total_at};
ghost use Rattle.counting.specs.Given.{Given};

use device::records::Descriptor;
use rows::holdings::{Holdings, SET_ROWS};
use segments::Segments;

// The descriptors of the set in row i are segment i of the records.
#[derive(Drop)]
pub struct CountingDevice {
    pub(crate) holdings: Holdings,
    pub(crate) records: Segments<Descriptor, SET_ROWS>,
    // the last handle that was given, of any kind
    pub(crate) last: u64,
    pub(crate) mark: bool,
    ghost layouts: { Given last holdings.layouts },
    ghost pools: { Given last holdings.pools },
    ghost sets: { Given last holdings.sets },
    ghost sized: { (i : ℕ) → length_at records i ≡ total_at holdings i },
    ghost word: { last < 2 ^ 64 },
}
