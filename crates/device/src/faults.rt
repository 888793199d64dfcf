// A device's refusals.
ghost use Rattle.std.specs.Prelude.{◌≡◌};
ghost use Rattle.conversion.specs.Results.{error_of};
ghost use Rattle.device.specs.Results.{device_report};

use conversion::faults::{FaultReport, Layer};
use conversion::results::{DeviceCall, DeviceError, map_result};
use std::error::Error;
use std::fmt;

// The call that was refused, and its result number, which may be any.
#[derive(Clone, Copy, Debug, PartialEq, Eq)]
pub struct DeviceFault {
    pub call: DeviceCall,
    pub result: i32,
}

impl From<DeviceFault> for DeviceError {
    ghost from_gives = { λ fault error. error ≡ error_of fault.call fault.result };

    fn from(fault: DeviceFault) -> DeviceError {
        map_result(fault.call, fault.result)
    }
}

impl From<DeviceFault> for FaultReport {
    ghost from_gives = { λ fault report. report ≡ device_report fault };

    fn from(fault: DeviceFault) -> FaultReport {
        FaultReport {
            number: u32::from(DeviceError::from(fault)),
            layer: Layer::Device,
            entry: 0,
        }
    }
}

impl fmt::Display for DeviceFault {
    fn fmt<W: fmt::Write>(&self, f: &mut fmt::Formatter<W>) -> fmt::Result {
        write!(f, "call {}, result {}", u32::from(self.call), self.result)
    }
}

impl Error for DeviceFault {}
