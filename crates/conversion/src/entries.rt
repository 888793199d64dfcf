// A layout's entries.
ghost use Rattle.std.specs.Prelude.{◌≡◌};
ghost use Rattle.conversion.specs.Layouts.{is_array, entry_count};

use crate::kinds::EntryKind;

// One entry of a layout. An array size of 0 says that it is no array; one of 1 is an array of one.
// It stays a number: the rules give an entry an array size of 32 bits, in which 0 says none.
#[derive(Clone, Copy, Debug, PartialEq, Eq)]
pub struct LayoutEntry {
    pub binding: u32,
    pub kind: EntryKind,
    pub array: u32,
    pub stages: u32,
}

impl LayoutEntry {
    pub fn is_array(&self) -> bool
        ensures { result ≡ is_array self.now }
    {
        self.array != 0
    }

    // How many descriptors it counts for.
    pub fn count(&self) -> u32
        ensures { result ≡ entry_count self.now }
    {
        if self.is_array() { self.array } else { 1 }
    }
}
