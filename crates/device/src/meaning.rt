// The device, by what it holds and what its calls change.
ghost use Rattle.device.specs.Meaning.{State};
ghost use Rattle.device.specs.Fair.{Fair};
ghost use Rattle.device.specs.Writes.{lists_in};
ghost use Rattle.device.specs.Calls.{LayoutMade, LayoutGone, PoolMade, PoolGone, SetMade, SetFreed, Updated};
ghost use Rattle.device.specs.Requests.{Request, create_layout, destroy_layout, create_pool, destroy_pool, allocate_set, free_set, update_sets};

use crate::faults::DeviceFault;
use crate::records::{PoolSize, Records, Write};
use conversion::bindings::DeviceBinding;

pub trait Device {
    ghost meaning: { Self → State };

    // This request, and no other, was made between two devices. Only the calls below give it.
    ghost did: { Self → Request → Self → Type 0 };

    fn create_layout(&mut self, bindings: &[DeviceBinding], flags: u32) -> Result<u64, DeviceFault>
        ensures held { LayoutMade (meaning self.old) bindings.now flags result (meaning self.new) }
        ensures one { did self.old (create_layout bindings.now flags) self.new };

    fn destroy_layout(&mut self, layout: u64)
        ensures held { LayoutGone (meaning self.old) layout (meaning self.new) }
        ensures one { did self.old (destroy_layout layout) self.new };

    fn create_pool(&mut self, most: u32, sizes: &[PoolSize], flags: u32) -> Result<u64, DeviceFault>
        ensures held { PoolMade (meaning self.old) most sizes.now flags result (meaning self.new) }
        ensures one { did self.old (create_pool most sizes.now flags) self.new };

    fn destroy_pool(&mut self, pool: u64)
        ensures held { PoolGone (meaning self.old) pool (meaning self.new) }
        ensures one { did self.old (destroy_pool pool) self.new };

    fn allocate_set(&mut self, pool: u64, layout: u64) -> Result<u64, DeviceFault>
        ensures held { SetMade (meaning self.old) pool layout result (meaning self.new) }
        ensures one { did self.old (allocate_set pool layout) self.new };

    // Whether the set lived in the pool; then it is gone.
    fn free_set(&mut self, pool: u64, set: u64) -> bool
        ensures held { SetFreed (meaning self.old) pool set result (meaning self.new) }
        ensures one { did self.old (free_set pool set) self.new };

    fn update_sets(&mut self, writes: &[Write], records: Records<'_>)
        ensures held { Updated (meaning self.old) writes.now (lists_in records.entry) (meaning self.new) }
        ensures one { did self.old (update_sets writes.now (lists_in records.entry)) self.new };

    // Obstacles and handles are such as the rules allow.
    ghost fair: { (x : Self) → Fair (meaning x) };
}
