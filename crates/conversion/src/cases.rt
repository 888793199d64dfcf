// What the definitions say together, and single results of them.
ghost use Rattle.std.specs.Prelude.{◌≡◌, Decides};
ghost use Rattle.conversion.specs.Cases.{KindsByNumber, TotalCases};

use crate::counts::{BucketKey, DescriptorCounts};

// No two kinds have one number.
pub fn kinds_by_number()
    ensures { KindsByNumber }
{}

// Comparing counts or keys tells whether they are the same.
pub fn sameness_is_told()
    ensures counts { (a b : DescriptorCounts) → Decides (⟦<DescriptorCounts as PartialEq>⟧.eq a b) (a ≡ b) }
    ensures keys { (a b : BucketKey) → Decides (⟦<BucketKey as PartialEq>⟧.eq a b) (a ≡ b) }
{}

// The total that a layout may count for, at its limit.
pub fn total_cases()
    ensures { TotalCases }
{}
