// Vulkan's result numbers, and the errors that they stand for.
ghost use Rattle.std.specs.Prelude.{◌≡◌};
ghost use Rattle.conversion.specs.Results.{call_number, refusal_number, plain_error, pool_error, error_of};

use std::error::Error;
use std::fmt;

// The calls that make something, and can be refused with a result number.
#[derive(Clone, Copy, Debug, PartialEq, Eq)]
pub enum DeviceCall {
    Layout,
    Pool,
    Set,
}

impl From<DeviceCall> for u32 {
    ghost from_gives = { λ call number. number ≡ call_number call };

    fn from(call: DeviceCall) -> u32 {
        match call {
            DeviceCall::Layout => 1,
            DeviceCall::Pool => 2,
            DeviceCall::Set => 3,
        }
    }
}

// What a refused call means: a memory fault, or another.
#[derive(Clone, Copy, Debug, PartialEq, Eq)]
pub enum DeviceError {
    OutOfMemory,
    Unexpected,
}

// The number of the refusal.
impl From<DeviceError> for u32 {
    ghost from_gives = { λ error number. number ≡ refusal_number error };

    fn from(error: DeviceError) -> u32 {
        match error {
            DeviceError::OutOfMemory => 13,
            DeviceError::Unexpected => 14,
        }
    }
}

impl fmt::Display for DeviceError {
    fn fmt<W: fmt::Write>(&self, f: &mut fmt::Formatter<W>) -> fmt::Result {
        f.write_str(match self {
            DeviceError::OutOfMemory => "a memory fault",
            DeviceError::Unexpected => "another fault",
        })
    }
}

impl Error for DeviceError {}

// Results stay numbers, since a device may answer any of 32 bits.
const ERROR_OUT_OF_HOST_MEMORY: i32 = -1;

const ERROR_OUT_OF_DEVICE_MEMORY: i32 = -2;

const ERROR_FRAGMENTATION: i32 = -1000161000;

// The crate's two mappings under their names, and one over both: a result means something only of a call.
pub fn map_host_device_oom_err(res: i32) -> DeviceError
    ensures { result ≡ plain_error res }
{
    match res {
        ERROR_OUT_OF_HOST_MEMORY | ERROR_OUT_OF_DEVICE_MEMORY => DeviceError::OutOfMemory,
        _ => DeviceError::Unexpected,
    }
}

pub fn map_host_device_oom_and_fragmentation_err(res: i32) -> DeviceError
    ensures { result ≡ pool_error res }
{
    match res {
        ERROR_FRAGMENTATION => DeviceError::OutOfMemory,
        other => map_host_device_oom_err(other),
    }
}

// What a result number of a call means: fragmented memory is a memory fault only of a pool.
pub fn map_result(call: DeviceCall, res: i32) -> DeviceError
    ensures { result ≡ error_of call res }
{
    match call {
        DeviceCall::Layout | DeviceCall::Set => map_host_device_oom_err(res),
        DeviceCall::Pool => map_host_device_oom_and_fragmentation_err(res),
    }
}
