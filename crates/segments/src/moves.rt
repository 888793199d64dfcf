// Records that make room, or take it up again.
ghost use Rattle.std.specs.Prelude.{◌+◌, ◌≤◌, length};
ghost use Rattle.segments.specs.Moves.{Raised, Lowered};

// Makes a gap of `by` records at `start`, for which those up to `end` go up.
pub(crate) fn raise<T: Copy>(records: &mut [Option<T>], start: usize, end: usize, by: usize)
    requires { (start ≤ end) × (end + by ≤ length records.old) }
    ensures { Raised records.old start end by records.new }
{
    records.copy_within(start..end, start + by);
    records[start..start + by].fill(None);
}

// Takes the `by` records at `start` away, for which those up to `end` go down.
pub(crate) fn lower<T: Copy>(records: &mut [Option<T>], start: usize, end: usize, by: usize)
    requires { (start + by ≤ end) × (end ≤ length records.old) }
    ensures { Lowered records.old start end by records.new }
{
    records.copy_within(start + by..end, start);
}
