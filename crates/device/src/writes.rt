// One write: whether it is valid, and what it puts where.
ghost use Rattle.std.specs.Prelude.{◌≡◌, ◌+◌, nat_le};
ghost use Rattle.std.specs.Option.{option_map};
ghost use Rattle.conversion.specs.Kinds.{kind_of_type};
ghost use Rattle.device.specs.Stored.{described};
ghost use Rattle.device.specs.Writes.{lists_in, lies, fits, valid_for, descriptor_of};

use crate::records::{Descriptor, RecordList, Records, Write};
use conversion::bindings::DeviceBinding;
use conversion::kinds::Kind;

// Whether a part ends within a list of that length. The sum of start and count might not fit.
fn ends_within(start: usize, count: usize, length: usize) -> bool
    ensures { result ≡ nat_le (start + count) length }
{
    count <= length && start <= length - count
}

impl Write {
    // Whether the binding has the write's type, and room for it.
    fn fits(&self, binding: Option<DeviceBinding>) -> bool
        ensures { result ≡ fits self.now binding }
    {
        binding.is_some_and(|b| {
            b.descriptor_type == self.descriptor_type && self.count >= 1 && self.count <= b.count
        })
    }

    // Whether its records lie in the list of its kind.
    fn lies_in(&self, records: Records<'_>) -> bool
        ensures { result ≡ lies (lists_in records.entry) self.now (kind_of_type self.now.descriptor_type) }
    {
        // a `match`, since of `is_ok_and` the proof did not close
        match Kind::try_from(self.descriptor_type) {
            Ok(kind) => {
                let length = records.length_of(RecordList::from(kind));
                ends_within(self.start, self.count as usize, length)
            }
            Err(_) => false,
        }
    }

    // Whether it is valid for the binding that it goes to.
    pub fn is_valid(&self, binding: Option<DeviceBinding>, records: Records<'_>) -> bool
        ensures { result ≡ valid_for (lists_in records.entry) self.now binding }
    {
        self.fits(binding) && self.element == 0 && self.lies_in(records)
    }

    // Its descriptor i, if the record is there.
    pub fn descriptor(&self, i: usize, records: Records<'_>) -> Option<Descriptor>
        ensures { option_map described result ≡ descriptor_of (lists_in records.entry) self.now i (kind_of_type self.now.descriptor_type) }
    {
        let kind = Kind::try_from(self.descriptor_type).ok()?;
        let place = self.start.checked_add(i)?;
        let content = records.content_at(RecordList::from(kind), place)?;
        Some(Descriptor { kind, content })
    }
}
