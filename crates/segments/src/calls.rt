// What segments answer, and what changes them.
ghost use Rattle.std.specs.Prelude.{◌≡◌, ◌+◌, ◌<◌, ◌≤◌, IfSome, IfOk, if◌then◌else◌, Some, None, nat_lt};
ghost use Rattle.segments.specs.Segments.{length_at, start_at, element, used, size, Empty, Written, can_make, Made, Cleared};

use super::Segments;
use super::moves::{lower, raise};
use std::alloc::{AllocError, Global};

impl<T: Copy, const S: usize> Segments<T, S> {
    // Room for so many records, and no segment in it yet.
    pub fn new(heap: Global, records: usize) -> Result<Self, AllocError>
        ensures { IfOk result (Empty records) }
    {
        let mut list = Vec::new(heap);
        list.resize(records, None)?;
        Ok(Segments {
            lengths: [0; S],
            records: list,
        })
    }

    pub fn size(&self) -> usize
        ensures { result ≡ size self.now }
    {
        self.records.len()
    }

    pub fn length(&self, i: usize) -> usize
        ensures { result ≡ length_at self.now i }
    {
        self.lengths.get(i).copied().unwrap_or(0)
    }

    // Where segment i begins; segment S would begin where all end.
    fn start(&self, i: usize) -> usize
        requires { i ≤ S }
        ensures { result ≡ start_at self.now i }
    {
        self.lengths[..i].iter().sum()
    }

    pub fn used(&self) -> usize
        ensures { result ≡ used self.now }
    {
        self.start(S)
    }

    // Where element j of segment i stands, if it is there.
    fn place(&self, i: usize, j: usize) -> Option<usize>
        ensures at { result ≡ (if nat_lt j (length_at self.now i) then Some (start_at self.now i + j) else None) }
        ensures within { IfSome result (λ p. p < size self.now) }
    {
        if j < self.length(i) {
            Some(self.start(i) + j)
        } else {
            None
        }
    }

    pub fn read(&self, i: usize, j: usize) -> Option<T>
        ensures { result ≡ element self.now i j }
    {
        let place = self.place(i, j)?;
        self.records[place]
    }

    // Writes element j of segment i, if it is there, and answers whether it is; a yes or no says it all, here and in `make`.
    pub fn write(&mut self, i: usize, j: usize, x: T) -> bool
        ensures { Written self.old i j x result self.new }
    {
        let Some(place) = self.place(i, j) else {
            return false;
        };
        self.records[place] = Some(x);
        true
    }

    fn can_make(&self, i: usize, length: usize) -> bool
        ensures { result ≡ can_make self.now i length }
    {
        i < S && self.length(i) == 0 && length <= self.size() - self.used()
    }

    // Makes the empty segment i a segment of so many records, if there is room, and answers whether it did.
    pub fn make(&mut self, i: usize, length: usize) -> bool
        ensures { Made self.old i length result self.new }
    {
        if !self.can_make(i, length) {
            return false;
        }
        let start = self.start(i);
        let end = self.used();
        raise(&mut self.records, start, end, length);
        self.lengths[i] = length;
        true
    }

    // Makes segment i empty.
    pub fn clear(&mut self, i: usize)
        ensures { Cleared self.old i self.new }
    {
        // a test and no `get`, since three things are done under it
        if i < S {
            let start = self.start(i);
            let end = self.used();
            lower(&mut self.records, start, end, self.lengths[i]);
            self.lengths[i] = 0;
        }
    }
}
