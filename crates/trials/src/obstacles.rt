// The obstacles in their order: invalid, exhausted, no free row, no room.
use crate::helpers::*;
use conversion::bindings::DeviceBinding;
use conversion::kinds::{KINDS, Kind};
use counting::counting::CountingDevice;
use device::meaning::Device;
use std::process::Abort;
use std::test::*;

// Rows are used again, handles are not.
#[test]
fn layout_rows(rt: HostRuntime) -> Result<(), Fail> {
    let mut trial = Trial::open(&rt, 8)?;
    let many = [binding(Kind::Sampler, 1); 33];
    let unknown = DeviceBinding {
        descriptor_type: OTHER_TYPE,
        ..binding(Kind::Sampler, 1)
    };
    trial.expect_layout(&many, 0, Err(NO_ROW))?;
    trial.expect_layout(&many[0..32], 0, Ok(1))?;
    for handle in 2..65 {
        trial.expect_layout(&[], 0, Ok(handle))?;
    }
    trial.expect_layout(&[], 0, Err(NO_ROW))?;
    trial.device.destroy_layout(10);
    trial.expect_layout(&[], 0, Ok(65))?;
    trial.expect_layout(&[], 0, Err(NO_ROW))?;
    trial.expect_held([64, 0, 0, 0])?;
    assert!(rt; !trial.device.is_marked());
    trial.expect_layout(&[unknown], 0, Err(INVALID))
}

#[test]
fn pool_rows(rt: HostRuntime) -> Result<(), Fail> {
    let mut trial = Trial::open(&rt, 8)?;
    for handle in 1..129 {
        trial.expect_pool(1, &[], 1, Ok(handle))?;
    }
    trial.expect_pool(1, &[], 1, Err(NO_ROW))?;
    trial.device.destroy_pool(100);
    trial.expect_pool(1, &[], 1, Ok(129))?;
    trial.expect_pool(1, &[], 1, Err(NO_ROW))?;
    trial.expect_held([0, 128, 0, 0])?;
    assert!(rt; !trial.device.is_marked());
    trial.expect_pool(0, &[], 1, Err(INVALID))
}

// A device without room for a descriptor: layout 1 needs none, and 2 needs one, that pool 3 has and pool 4 has not.
#[test]
fn set_rows(rt: HostRuntime) -> Result<(), Fail> {
    let mut trial = Trial::with_samplers(&rt, 0, &[0, 1])?;
    trial.expect_pool(2000, &[size(Kind::Sampler, 1)], 1, Ok(3))?;
    trial.expect_pool(2000, &[], 1, Ok(4))?;
    trial.expect_sets(&[(3, 2, Err(NO_ROOM))])?;
    for handle in 5..1029 {
        trial.expect_sets(&[(4, 1, Ok(handle))])?;
    }
    trial.expect_sets(&[(4, 1, Err(NO_ROW)), (3, 2, Err(NO_ROW))])?;
    assert!(rt; trial.device.free_set(4, 500));
    trial.expect_sets(&[(4, 1, Ok(1029)), (4, 1, Err(NO_ROW))])?;
    assert!(rt; !trial.device.is_marked());
    trial.expect_sets(&[(4, 2, Err(EXHAUSTED))])?;
    assert!(rt; trial.device.is_marked());
    trial.expect_sets(&[(4, 9, Err(INVALID))])?;
    trial.expect_held([2, 2, 1024, 0])
}

// Room for five descriptors, and layouts 1 to 4 with three, two, one and none. Pool 5 is no obstacle.
#[test]
fn room(rt: HostRuntime) -> Result<(), Fail> {
    let mut trial = Trial::with_samplers(&rt, 5, &[3, 2, 1, 0])?;
    trial.expect_pool(100, &[size(Kind::Sampler, 100)], 1, Ok(5))?;
    trial.expect_sets(&[
        (5, 1, Ok(6)),
        (5, 2, Ok(7)),
        (5, 3, Err(NO_ROOM)),
        (5, 4, Ok(8)),
    ])?;
    trial.expect_held([4, 1, 3, 5])?;
    assert!(rt; trial.device.free_set(5, 6));
    trial.expect_sets(&[(5, 3, Ok(9)), (5, 1, Err(NO_ROOM))])?;
    trial.expect_held([4, 1, 3, 3])?;
    assert!(rt; !trial.device.is_marked());
    Ok(())
}

// Sets of two descriptors of a kind: pool 2 has four, pool 3 three, and the device six.
fn check_exhaustion(rt: &(impl Abort + AllocGlobal), kind: Kind) -> Result<(), Fail> {
    let mut trial = Trial::open(rt, 6)?;
    trial.expect_layout(&[binding(kind, 2)], 0, Ok(1))?;
    trial.expect_pool(9, &[size(kind, 4)], 1, Ok(2))?;
    trial.expect_pool(9, &[size(kind, 3)], 1, Ok(3))?;
    trial.expect_sets(&[(3, 1, Ok(4)), (2, 1, Ok(5)), (2, 1, Ok(6))])?;
    assert!(rt; !trial.device.is_marked());
    trial.expect_sets(&[(3, 1, Err(EXHAUSTED))])?;
    assert!(rt; trial.device.is_marked());
    trial.expect_sets(&[(2, 1, Err(EXHAUSTED))])?;
    trial.expect_held([1, 2, 3, 6])?;
    assert!(rt; trial.device.free_set(3, 4));
    trial.expect_sets(&[(3, 1, Ok(7))])
}

#[test]
fn exhaustion(rt: HostRuntime) -> Result<(), Fail> {
    for kind in KINDS {
        check_exhaustion(&rt, kind)?;
    }
    // by the most sets
    let mut trial = Trial::with_samplers(&rt, 8, &[0])?;
    trial.expect_pool(2, &[], 1, Ok(2))?;
    trial.expect_sets(&[(2, 1, Ok(3)), (2, 1, Ok(4))])?;
    assert!(rt; !trial.device.is_marked());
    trial.expect_sets(&[(2, 1, Err(EXHAUSTED))])?;
    assert!(rt; trial.device.is_marked() && trial.device.free_set(2, 3));
    trial.expect_sets(&[(2, 1, Ok(5))])
}
