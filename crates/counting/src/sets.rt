// Sets removed, and written to.
ghost use Rattle.std.specs.Prelude.{◌≡◌, ◌^◌, ◌<◌};
ghost use Rattle.std.specs.Option.{option_map};
ghost use Rattle.device.specs.Stored.{described};
ghost use Rattle.device.specs.Writes.{lists_in};
ghost use Rattle.counting.specs.Steps.{in_pool_at, Removed, AllRemoved, PutAt, Filled, Applied};

use crate::counting::CountingDevice;
use device::records::{Descriptor, Records, Write};
use rows::counting::is_of_pool;
use rows::holdings::SET_ROWS;
use segments::Segments;

impl CountingDevice {
    pub(crate) fn remove_set(&mut self, row: usize)
        ensures { Removed self.old row self.new }
    {
        self.holdings.sets.clear(row);
        self.records.clear(row);
    }

    fn is_in_pool(&self, row: usize, pool: u64) -> bool
        ensures { result ≡ in_pool_at self.now pool row }
    {
        is_of_pool(self.holdings.sets.slot(row), pool)
    }

    pub(crate) fn remove_sets_of(&mut self, pool: u64)
        ensures { AllRemoved self.old pool self.new }
    {
        // by row numbers, since removing a set changes the rows that an iterator would borrow
        for row in 0..SET_ROWS {
            if self.is_in_pool(row, pool) {
                self.remove_set(row);
            }
        }
    }

    // One write.
    pub(crate) fn apply(&mut self, write: &Write, records: Records<'_>)
        ensures { Applied self.old write.now (lists_in records.entry) self.new }
    {
        let binding = write.binding as usize;
        let Some(set) = self.holdings.sets.find(write.set) else {
            self.mark = true;
            return;
        };
        let there = self.holdings.binding(set.value.layout, binding);
        if !write.is_valid(there, records) {
            self.mark = true;
            return;
        }
        let start = self.holdings.start(set.value.layout, binding);
        fill(&mut self.records, set.row, start, write, records);
    }
}

// Puts a descriptor into a record of a segment, if there is one.
fn put(
    segments: &mut Segments<Descriptor, SET_ROWS>,
    row: usize,
    at: usize,
    descriptor: Option<Descriptor>,
)
    ensures { PutAt segments.old row at (option_map described descriptor) segments.new }
{
    if let Some(d) = descriptor {
        let _ = segments.write(row, at, d);
    }
}

// Puts the descriptors of a write into a segment, from a start on. The bound is of a plain number, which has no type of its own to keep it.
fn fill(
    segments: &mut Segments<Descriptor, SET_ROWS>,
    row: usize,
    start: usize,
    write: &Write,
    records: Records<'_>,
)
    requires { start < 2 ^ 37 }
    ensures { Filled segments.old row start write.now write.now.count (lists_in records.entry) segments.new }
{
    // j counts the elements of the write, and is no index into a list
    for j in 0..write.count as usize {
        put(segments, row, start + j, write.descriptor(j, records));
    }
}
