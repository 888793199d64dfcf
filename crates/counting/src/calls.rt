// What the calls of the counting device are made of.
ghost use Rattle.std.specs.Prelude.{◌≡◌, Err, MatchResult};
ghost use Rattle.conversion.specs.declared.results.DeviceCall.TheVariants.{Layout, Pool, Set};
ghost use Rattle.device.specs.Results.{answered};
ghost use Rattle.counting.specs.Obstacles.{result_of};
ghost use Rattle.counting.specs.Counting.{next_handle, fixed_layout, fixed_pool, fixed_set};
ghost use Rattle.counting.specs.Steps.{LayoutPlaced, PoolPlaced, SetPlaced, Marked};

use crate::counting::CountingDevice;
use conversion::bindings::DeviceBinding;
use conversion::results::DeviceCall;
use device::faults::DeviceFault;
use rows::bindings::Bindings;

// What stands in the way of a making call.
#[derive(Clone, Copy)]
pub(crate) enum Obstacle {
    NoHostMemory,
    NoDeviceMemory,
    // what an invalid call is answered with
    Unknown,
    OutOfPool,
}

// VkResult
impl From<Obstacle> for i32 {
    ghost from_gives = { λ obstacle res. res ≡ result_of obstacle };

    fn from(obstacle: Obstacle) -> i32 {
        match obstacle {
            Obstacle::NoHostMemory => -1,
            Obstacle::NoDeviceMemory => -2,
            Obstacle::Unknown => -13,
            Obstacle::OutOfPool => -1000069000,
        }
    }
}

impl Obstacle {
    // The refusal of the call.
    pub(crate) fn fault(self, call: DeviceCall) -> DeviceFault
        ensures { result ≡ record { call = call; result = result_of self } }
    {
        DeviceFault {
            call,
            result: i32::from(self),
        }
    }
}

// Where something that can be made goes.
#[derive(Clone, Copy)]
pub(crate) struct Place {
    pub(crate) row: usize,
    pub(crate) handle: u64,
}

#[derive(Clone, Copy)]
pub(crate) struct LayoutPlace {
    pub(crate) place: Place,
    pub(crate) bindings: Bindings,
}

impl CountingDevice {
    fn next_handle(&self, call: DeviceCall) -> Result<u64, DeviceFault>
        ensures { result ≡ answered call (next_handle self.now) }
    {
        if self.last < u64::MAX {
            Ok(self.last + 1)
        } else {
            Err(Obstacle::NoHostMemory.fault(call))
        }
    }

    // The refusal of a layout, or where it goes.
    pub(crate) fn layout_place(
        &self,
        bindings: &[DeviceBinding],
    ) -> Result<LayoutPlace, DeviceFault>
        ensures { MatchResult result (LayoutPlaced self.now bindings.now) (λ fault. answered Layout (fixed_layout self.now bindings.now) ≡ Err fault) }
    {
        let bindings = Bindings::try_from(bindings).map_err(|_| Obstacle::NoHostMemory.fault(
            DeviceCall::Layout,
        ))?;
        let row = self
            .holdings
            .free_layout_row()
            .ok_or(Obstacle::NoHostMemory.fault(DeviceCall::Layout))?;
        let handle = self.next_handle(DeviceCall::Layout)?;
        Ok(LayoutPlace {
            place: Place { row, handle },
            bindings,
        })
    }

    // The refusal of a pool, or where it goes.
    pub(crate) fn pool_place(&self) -> Result<Place, DeviceFault>
        ensures { MatchResult result (PoolPlaced self.now) (λ fault. answered Pool (fixed_pool self.now) ≡ Err fault) }
    {
        let row = self
            .holdings
            .pools
            .unused_row()
            .ok_or(Obstacle::NoHostMemory.fault(DeviceCall::Pool))?;
        let handle = self.next_handle(DeviceCall::Pool)?;
        Ok(Place { row, handle })
    }

    // The refusal of a set with so many descriptors, or where it goes.
    pub(crate) fn set_place(&self, total: usize) -> Result<Place, DeviceFault>
        ensures { MatchResult result (SetPlaced self.now total) (λ fault. answered Set (fixed_set self.now total) ≡ Err fault) }
    {
        let row = self
            .holdings
            .sets
            .unused_row()
            .ok_or(Obstacle::NoHostMemory.fault(DeviceCall::Set))?;
        let handle = self.next_handle(DeviceCall::Set)?;
        if total > self.records.size() - self.records.used() {
            return Err(Obstacle::NoDeviceMemory.fault(DeviceCall::Set));
        }
        Ok(Place { row, handle })
    }

    // A call that is invalid, or finds its pool exhausted: it sets the mark, and changes nothing else.
    pub(crate) fn refused(&mut self, call: DeviceCall, obstacle: Obstacle) -> DeviceFault
        ensures fault { result ≡ record { call = call; result = result_of obstacle } }
        ensures marked { Marked self.old self.new }
    {
        self.mark = true;
        obstacle.fault(call)
    }
}
