// Opening, and reading back.
ghost use Rattle.std.specs.Prelude.{◌≡◌, IfOk};
ghost use Rattle.std.specs.Option.{option_map};
ghost use Rattle.device.specs.Stored.{described};
ghost use Rattle.counting.specs.Counting.{meaning_of};
ghost use Rattle.counting.specs.Reading.{Opened, read_back, tally_of};

use crate::counting::CountingDevice;
use device::records::Descriptor;
use rows::holdings::Holdings;
use segments::Segments;
use std::alloc::{AllocError, Global};
use std::fmt;

// How many layouts, pools and sets live, and how many descriptors the sets have.
#[derive(Clone, Copy, Debug, PartialEq, Eq)]
pub struct Tally {
    pub layouts: usize,
    pub pools: usize,
    pub sets: usize,
    pub descriptors: usize,
}

impl fmt::Display for Tally {
    fn fmt<W: fmt::Write>(&self, f: &mut fmt::Formatter<W>) -> fmt::Result {
        write!(
            f,
            "layouts {}, pools {}, sets {}, descriptors {}",
            self.layouts, self.pools, self.sets, self.descriptors
        )
    }
}

impl CountingDevice {
    // An empty device with room for so many descriptors.
    pub fn open(heap: Global, records: usize) -> Result<CountingDevice, AllocError>
        ensures { IfOk result (Opened records) }
    {
        let records = Segments::new(heap, records)?;
        Ok(CountingDevice {
            holdings: Holdings::new(),
            records,
            last: 0,
            mark: false,
        })
    }

    // The descriptor in an element of a binding of a set, if there is one.
    pub fn read_back(&self, set: u64, binding: u32, element: u32) -> Option<Descriptor>
        ensures { option_map described result ≡ read_back (meaning_of self.now) set binding element }
    {
        let binding = binding as usize;
        let element = element as usize;
        let found = self.holdings.sets.find(set)?;
        let there = self.holdings.binding(found.value.layout, binding)?;
        if element < there.count as usize {
            self.records.read(
                found.row,
                self.holdings.start(found.value.layout, binding) + element,
            )
        } else {
            None
        }
    }

    // Whether an invalid call was made, or one found its pool exhausted.
    pub fn is_marked(&self) -> bool
        ensures { result ≡ (meaning_of self.now).mark }
    {
        self.mark
    }

    // How much is held.
    pub fn tally(&self) -> Tally
        ensures { result ≡ tally_of self.now }
    {
        Tally {
            layouts: self.holdings.layouts.count(),
            pools: self.holdings.pools.count(),
            sets: self.holdings.sets.count(),
            descriptors: self.records.used(),
        }
    }
}
