// What stays and what goes when sets, pools and layouts go.
use crate::helpers::*;
use conversion::kinds::Kind;
use counting::counting::CountingDevice;
use device::meaning::Device;
use std::test::*;

// Writes each set's own handle to it as a sampler.
fn write_own(device: &mut CountingDevice, sets: &[u64]) {
    for set in sets {
        device.update_sets(&[samplers_to(*set, 1)], images(&[sampler(*set)]));
    }
}

// Five sets with a sampler fill the device. With every other gone, one of three samplers fits: where records lie is no obstacle.
#[test]
fn gaps(rt: HostRuntime) -> Result<(), Fail> {
    let mut trial = Trial::with_samplers(&rt, 5, &[1, 3])?;
    trial.expect_pool(9, &[size(Kind::Sampler, 9)], 1, Ok(3))?;
    trial.expect_sets(&[
        (3, 1, Ok(4)),
        (3, 1, Ok(5)),
        (3, 1, Ok(6)),
        (3, 1, Ok(7)),
        (3, 1, Ok(8)),
    ])?;
    write_own(&mut trial.device, &[4, 5, 6, 7, 8]);
    assert!(rt;
        trial.device.free_set(3, 4) && trial.device.free_set(3, 6) && trial.device.free_set(3, 8)
    );
    trial.expect_sets(&[(3, 2, Ok(9))])?;
    // a new set holds nothing, also where an old one lay
    trial.expect_samplers(&[
        (9, 0, None),
        (9, 1, None),
        (9, 2, None),
        (5, 0, Some(5)),
        (7, 0, Some(7)),
    ])?;
    trial.device.update_sets(
        &[samplers_to(9, 3)],
        images(&[sampler(21), sampler(22), sampler(23)]),
    );
    trial.expect_samplers(&[
        (9, 0, Some(21)),
        (9, 1, Some(22)),
        (9, 2, Some(23)),
        (5, 0, Some(5)),
        (7, 0, Some(7)),
    ])?;
    trial.expect_samplers(&[(4, 0, None), (6, 0, None), (8, 0, None)])?;
    trial.expect_held([2, 1, 3, 5])?;
    assert!(rt; !trial.device.is_marked());
    Ok(())
}

// One set after the other in the same place. A sampler 0 of type 0 is not nothing.
#[test]
fn new_sets(rt: HostRuntime) -> Result<(), Fail> {
    let mut trial = Trial::with_samplers(&rt, 2, &[2])?;
    trial.expect_pool(1, &[size(Kind::Sampler, 2)], 1, Ok(2))?;
    for set in 3..6 {
        trial.expect_sets(&[(2, 1, Ok(set))])?;
        assert!(rt;
            trial.device.read_back(set, 0, 0).is_none()
                && trial.device.read_back(set, 0, 1).is_none()
        );
        trial
            .device
            .update_sets(&[samplers_to(set, 2)], images(&[sampler(0), sampler(9)]));
        trial.expect_samplers(&[(set, 0, Some(0)), (set, 1, Some(9)), (set, 2, None)])?;
        assert!(rt; trial.device.free_set(2, set) && trial.device.read_back(set, 0, 0).is_none());
    }
    assert!(rt; !trial.device.is_marked());
    Ok(())
}

// Layout 1 is destroyed while sets 66 and 67 of it live, and its row is taken until both are gone.
#[test]
fn destroyed_layout(rt: HostRuntime) -> Result<(), Fail> {
    let mut trial = Trial::with_samplers(&rt, 8, &[2])?;
    for handle in 2..65 {
        trial.expect_layout(&[], 0, Ok(handle))?;
    }
    trial.expect_pool(2, &[size(Kind::Sampler, 4)], 1, Ok(65))?;
    trial.expect_sets(&[(65, 1, Ok(66)), (65, 1, Ok(67))])?;
    trial.device.destroy_layout(1);
    trial.expect_held([63, 1, 2, 4])?;
    trial.expect_layout(&[], 0, Err(NO_ROW))?;
    assert!(rt; trial.device.free_set(65, 66));
    trial.expect_layout(&[], 0, Err(NO_ROW))?;
    // its set is as it was
    trial
        .device
        .update_sets(&[samplers_to(67, 2)], images(&[sampler(1), sampler(2)]));
    trial.expect_samplers(&[(67, 0, Some(1)), (67, 1, Some(2))])?;
    assert!(rt; trial.device.free_set(65, 67) && !trial.device.is_marked());
    trial.expect_layout(&[], 0, Ok(68))?;
    trial.expect_held([64, 1, 0, 0])?;
    trial.expect_sets(&[(65, 1, Err(INVALID))])
}

// Pool 2 has sets 4 and 6, pool 3 has set 5, and the device is full.
#[test]
fn destroyed_pool(rt: HostRuntime) -> Result<(), Fail> {
    let mut trial = Trial::with_samplers(&rt, 3, &[1])?;
    trial.expect_pool(2, &[size(Kind::Sampler, 2)], 1, Ok(2))?;
    trial.expect_pool(4, &[size(Kind::Sampler, 4)], 1, Ok(3))?;
    trial.expect_sets(&[
        (2, 1, Ok(4)),
        (3, 1, Ok(5)),
        (2, 1, Ok(6)),
        (3, 1, Err(NO_ROOM)),
    ])?;
    write_own(&mut trial.device, &[4, 5, 6]);
    trial.device.destroy_pool(2);
    trial.expect_held([1, 1, 1, 1])?;
    trial.expect_samplers(&[(4, 0, None), (5, 0, Some(5)), (6, 0, None)])?;
    assert!(rt; !trial.device.free_set(2, 4));
    trial.expect_sets(&[(3, 1, Ok(7)), (3, 1, Ok(8))])?;
    trial.expect_samplers(&[(5, 0, Some(5)), (7, 0, None), (8, 0, None)])?;
    assert!(rt; !trial.device.is_marked());
    trial.expect_sets(&[(2, 1, Err(INVALID))])
}
