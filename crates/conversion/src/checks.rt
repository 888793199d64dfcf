// The refusals of a layout's entries, in the order of their numbers.
ghost use Rattle.std.specs.Prelude.{◌≡◌, Some, None, MatchResult};
ghost use Rattle.std.specs.List.{position};
ghost use Rattle.conversion.specs.Layouts.{is_external, Finds, counts_of, has_array, too_many, misordered, with_external, overflowing, layout_answer, Judged};

use crate::counts::{BucketKey, DescriptorCounts};
use crate::entries::LayoutEntry;
use crate::faults::LayoutFault;

// The most entries that a layout can have. The device's own limit is another, though both are 32.
pub const MAX_ENTRIES: usize = 32;

fn check_length(entries: &[LayoutEntry]) -> Result<(), LayoutFault>
    ensures { Finds (too_many entries.now) result }
{
    if entries.len() > MAX_ENTRIES {
        Err(LayoutFault::TooManyEntries)
    } else {
        Ok(())
    }
}

fn check_order(entries: &[LayoutEntry]) -> Result<(), LayoutFault>
    ensures { Finds (misordered entries.now) result }
{
    // a loop, since of a search over `windows` the proof did not close
    let mut before: Option<u32> = None;
    for (i, e) in entries.iter().enumerate() {
        if before.is_some_and(|binding| e.binding <= binding) {
            return Err(LayoutFault::BindingOrder { entry: i });
        }
        before = Some(e.binding);
    }
    Ok(())
}

fn first_external(entries: &[LayoutEntry]) -> Option<usize>
    ensures { result ≡ position (λ e. is_external e.kind) entries.now }
{
    entries.iter().position(|e| e.kind.is_external())
}

fn check_kinds(entries: &[LayoutEntry]) -> Result<(), LayoutFault>
    ensures { Finds (with_external entries.now) result }
{
    match first_external(entries) {
        Some(entry) => Err(LayoutFault::ExternalTexture { entry }),
        None => Ok(()),
    }
}

// The eight counts, each entry counted once, with the running total checked.
fn count_descriptors(entries: &[LayoutEntry]) -> Result<DescriptorCounts, LayoutFault>
    ensures { MatchResult result (λ counts. (counts ≡ counts_of entries.now) × (overflowing entries.now ≡ None)) (λ f. overflowing entries.now ≡ Some f) }
{
    // a loop, since two sums go along, and `let .. else`, since of `ok_or(..)?` the proof did not close
    let mut counts = DescriptorCounts::default();
    let mut total: u32 = 0;
    for (i, e) in entries.iter().enumerate() {
        let Some(sum) = total.checked_add(e.count()) else {
            return Err(LayoutFault::TooManyDescriptors { entry: i });
        };
        total = sum;
        counts.add_entry(e);
    }
    Ok(counts)
}

fn has_array(entries: &[LayoutEntry]) -> bool
    ensures { result ≡ has_array entries.now }
{
    entries.iter().any(|e| e.is_array())
}

// Whether the entries make a layout, and the key of its bucket; or the first refusal that applies.
pub fn check_layout(entries: &[LayoutEntry]) -> Result<BucketKey, LayoutFault>
    ensures answer { result ≡ layout_answer entries.now }
    ensures judged { Judged entries.now result }
{
    check_length(entries)?;
    check_order(entries)?;
    check_kinds(entries)?;
    let counts = count_descriptors(entries)?;
    Ok(BucketKey {
        counts,
        arrays: has_array(entries),
    })
}
