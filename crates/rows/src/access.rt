// Looking up rows, and changing them.
ghost use Rattle.std.specs.Prelude.{◌≡◌, replicate, if◌then◌else◌, Some, None, MatchOption, nat_eq};
ghost use Rattle.std.specs.Map.{update};
ghost use Rattle.std.specs.Option.{option_map};
ghost use Rattle.rows.specs.Slots.{is_handle};
ghost use Rattle.rows.specs.Tables.{slot, used_rows, slot_at, row_of, unused_row, can_put, changed};

use crate::slots::{Found, Slot};
use crate::table::Table;

fn is_handle<T: Copy>(row: Option<Slot<T>>, handle: u64) -> bool
    ensures { result ≡ is_handle handle row }
{
    row.is_some_and(|slot| slot.handle == handle)
}

fn with_value<T: Copy>(row: Option<Slot<T>>, value: T) -> Option<Slot<T>>
    ensures { result ≡ option_map (λ s. slot s.handle value) row }
{
    row.map(|slot| Slot { value, ..slot })
}

impl<T: Copy, const N: usize> Table<T, N> {
    pub fn new() -> Self
        ensures { result.rows ≡ replicate N None }
    {
        Table { rows: [None; N] }
    }

    pub fn row_of(&self, handle: u64) -> Option<usize>
        ensures { result ≡ row_of self.now handle }
    {
        self.rows.iter().position(|row| is_handle(*row, handle))
    }

    pub fn unused_row(&self) -> Option<usize>
        ensures { result ≡ unused_row self.now }
    {
        self.rows.iter().position(|row| row.is_none())
    }

    // How many rows are used.
    pub fn count(&self) -> usize
        ensures { result ≡ used_rows self.now }
    {
        self.rows.iter().filter(|row| row.is_some()).count()
    }

    pub fn slot(&self, i: usize) -> Option<Slot<T>>
        ensures { result ≡ slot_at self.now i }
    {
        self.rows.get(i).copied().flatten()
    }
}

impl<T: Copy, const N: usize> Table<T, N> {
    // The row that has a handle, and its value.
    pub fn find(&self, handle: u64) -> Option<Found<T>>
        ensures { MatchOption result (row_of self.now handle ≡ None) (λ f. (row_of self.now handle ≡ Some f.row) × (slot_at self.now f.row ≡ Some (slot handle f.value))) }
    {
        let row = self.row_of(handle)?;
        let slot = self.slot(row)?;
        Some(Found {
            row,
            value: slot.value,
        })
    }

    fn can_put(&self, i: usize, handle: u64) -> bool
        ensures { result ≡ can_put self.now i handle }
    {
        i < N && self.slot(i).is_none() && self.row_of(handle).is_none()
    }

    // Puts a value under a handle into an unused row, and answers whether it did: not if the handle stands already.
    // A yes or no, as of std's `insert`, since there is nothing to say beside it.
    pub fn put(&mut self, i: usize, handle: u64, value: T) -> bool
        ensures answer { result ≡ can_put self.old i handle }
        ensures rows { slot_at self.new ≡ (if result then update nat_eq (slot_at self.old) i (Some (slot handle value)) else slot_at self.old) }
    {
        if !self.can_put(i, handle) {
            return false;
        }
        self.rows[i] = Some(Slot { handle, value });
        true
    }

    // Changes the value in a row that is used.
    pub fn change(&mut self, i: usize, value: T)
        ensures { slot_at self.new ≡ changed (slot_at self.old) i value }
    {
        // no `get_mut`, here and in `clear`, since a proof knows nothing of the elements after it
        if i < N {
            self.rows[i] = with_value(self.rows[i], value);
        }
    }

    pub fn clear(&mut self, i: usize)
        ensures { slot_at self.new ≡ update nat_eq (slot_at self.old) i None }
    {
        if i < N {
            self.rows[i] = None;
        }
    }
}
