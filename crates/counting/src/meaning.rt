// The counting device has the meaning of a device.
ghost use Rattle.counting.specs.Counting.{meaning_of, Counted};
ghost use Rattle.counting.specs.Fairly.{is_fair};

use crate::calls::{LayoutPlace, Obstacle};
use crate::counting::CountingDevice;
use conversion::bindings::DeviceBinding;
use conversion::results::DeviceCall;
use device::faults::DeviceFault;
use device::meaning::Device;
use device::records::{PoolSize, Records, Write};
use device::validity::is_invalid_layout;
use rows::holdings::SetRow;
use rows::pools::{PoolRow, is_unfit};

impl Device for CountingDevice {
    ghost meaning = { meaning_of };

    ghost did = { Counted };

    ghost fair = { λ x. is_fair x };

    fn create_layout(
        &mut self,
        bindings: &[DeviceBinding],
        flags: u32,
    ) -> Result<u64, DeviceFault> {
        if is_invalid_layout(bindings) {
            return Err(self.refused(DeviceCall::Layout, Obstacle::Unknown));
        }
        let LayoutPlace { place, bindings } = self.layout_place(bindings)?;
        self.last = place.handle;
        let _ = self.holdings.layouts.put(place.row, place.handle, flags);
        self.holdings.bindings[place.row] = bindings;
        Ok(place.handle)
    }

    fn destroy_layout(&mut self, layout: u64) {
        if let Some(row) = self.holdings.layouts.row_of(layout) {
            self.holdings.layouts.clear(row);
        }
    }

    fn create_pool(
        &mut self,
        most: u32,
        sizes: &[PoolSize],
        flags: u32,
    ) -> Result<u64, DeviceFault> {
        let Some(pool) = PoolRow::of(most, sizes, flags) else {
            return Err(self.refused(DeviceCall::Pool, Obstacle::Unknown));
        };
        let place = self.pool_place()?;
        self.last = place.handle;
        let _ = self.holdings.pools.put(place.row, place.handle, pool);
        Ok(place.handle)
    }

    fn destroy_pool(&mut self, pool: u64) {
        if let Some(row) = self.holdings.pools.row_of(pool) {
            self.remove_sets_of(pool);
            self.holdings.pools.clear(row);
        }
    }

    fn allocate_set(&mut self, pool: u64, layout: u64) -> Result<u64, DeviceFault> {
        let Some(p) = self.holdings.pools.find(pool) else {
            return Err(self.refused(DeviceCall::Set, Obstacle::Unknown));
        };
        let Some(l) = self.holdings.layouts.find(layout) else {
            return Err(self.refused(DeviceCall::Set, Obstacle::Unknown));
        };
        if is_unfit(l.value, &p.value) {
            return Err(self.refused(DeviceCall::Set, Obstacle::Unknown));
        }
        if self.holdings.is_full(pool, &p.value, l.row) {
            return Err(self.refused(DeviceCall::Set, Obstacle::OutOfPool));
        }
        let total = self.holdings.total(l.row);
        let place = self.set_place(total)?;
        self.last = place.handle;
        let counts = self.holdings.counts(l.row, &p.value.sizes);
        self.holdings.pools.change(p.row, p.value.with_set(&counts));
        let set = SetRow {
            pool,
            layout: l.row,
        };
        let _ = self.holdings.sets.put(place.row, place.handle, set);
        let _ = self.records.make(place.row, total);
        Ok(place.handle)
    }

    fn free_set(&mut self, pool: u64, set: u64) -> bool {
        match self.holdings.sets.find(set) {
            Some(found) if found.value.pool == pool => {
                self.remove_set(found.row);
                true
            }
            _ => false,
        }
    }

    fn update_sets(&mut self, writes: &[Write], records: Records<'_>) {
        for write in writes {
            self.apply(write, records);
        }
    }
}
