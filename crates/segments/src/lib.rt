// Segments of records, one after the other in one list, so that all room that is left is one piece at its end.
#![tactic(auto)]

mod calls;
mod moves;

ghost use Rattle.std.specs.Prelude.{◌≡◌, ◌≤◌, length, vec_len};
ghost use Rattle.segments.specs.Places.{start_in};

// The segments stand in the order of their numbers. What the list holds past the last of them is of no account.
// One list and no list for each segment, since nothing in a device call may allocate.
#[derive(Drop)]
pub struct Segments<T, const S: usize> {
    lengths: [usize; S],
    records: Vec<Option<T>>,
    ghost all: { length lengths ≡ S },
    ghost fits: { start_in lengths S ≤ vec_len records },
}
