// Each invalid call is answered -13, sets the mark and leaves nothing new. What is not there can be freed and destroyed.
use crate::helpers::*;
use conversion::bindings::DeviceBinding;
use conversion::kinds::Kind;
use counting::counting::CountingDevice;
use device::meaning::Device;
use device::records::{BufferRecord, PoolSize, Records, Write};
use std::process::Abort;
use std::test::*;

fn check_invalid_layout(
    rt: &(impl Abort + AllocGlobal),
    bindings: &[DeviceBinding],
) -> Result<(), Fail> {
    let mut trial = Trial::open(rt, 8)?;
    trial.expect_layout(bindings, 0, Err(INVALID))?;
    assert!(rt; trial.device.is_marked());
    trial.expect_held([0, 0, 0, 0])?;
    trial.expect_layout(&[], 0, Ok(1))
}

#[test]
fn invalid_layouts(rt: HostRuntime) -> Result<(), Fail> {
    let known = binding(Kind::Sampler, 1);
    let unknown = DeviceBinding {
        descriptor_type: OTHER_TYPE,
        ..known
    };
    check_invalid_layout(&rt, &[unknown])?;
    check_invalid_layout(&rt, &[known, unknown])?;
    // -13 comes before the -1 of too many bindings
    check_invalid_layout(&rt, &[unknown; 33])
}

fn check_invalid_pool(
    rt: &(impl Abort + AllocGlobal),
    most: u32,
    sizes: &[PoolSize],
) -> Result<(), Fail> {
    let mut trial = Trial::open(rt, 8)?;
    trial.expect_pool(most, sizes, 1, Err(INVALID))?;
    assert!(rt; trial.device.is_marked());
    trial.expect_held([0, 0, 0, 0])?;
    trial.expect_pool(1, &[], 1, Ok(1))
}

#[test]
fn invalid_pools(rt: HostRuntime) -> Result<(), Fail> {
    let one = size(Kind::Sampler, 1);
    let other = size(Kind::SampledImage, 1);
    check_invalid_pool(&rt, 0, &[])?;
    check_invalid_pool(&rt, 0, &[one])?;
    check_invalid_pool(&rt, 1, &[one, size(Kind::SampledImage, 0)])?;
    check_invalid_pool(&rt, 1, &[one, other, one])?;
    check_invalid_pool(
        &rt,
        1,
        &[
            one,
            PoolSize {
                descriptor_type: OTHER_TYPE,
                ..one
            },
        ],
    )
}

// Layouts 1 and 2 have a sampler, and 2 is for update after bind. Pool 3 has a place for one set, and is not.
fn check_invalid_set(rt: &(impl Abort + AllocGlobal), pool: u64, layout: u64) -> Result<(), Fail> {
    let mut trial = Trial::with_samplers(rt, 8, &[1])?;
    trial.expect_layout(&[binding(Kind::Sampler, 1)], 2, Ok(2))?;
    trial.expect_pool(1, &[size(Kind::Sampler, 1)], 1, Ok(3))?;
    trial.expect_sets(&[(pool, layout, Err(INVALID))])?;
    assert!(rt; trial.device.is_marked());
    trial.expect_held([2, 1, 0, 0])?;
    // with the pool exhausted it is -13 all the same
    trial.expect_sets(&[(3, 1, Ok(4)), (pool, layout, Err(INVALID))])
}

#[test]
fn invalid_sets(rt: HostRuntime) -> Result<(), Fail> {
    // no such pool; no such layout; 1 is no pool, and 3 no layout; 2 needs another pool
    for (pool, layout) in [(9, 1), (3, 9), (0, 0), (1, 1), (3, 3), (3, 2)] {
        check_invalid_set(&rt, pool, layout)?;
    }
    // a pool for update after bind takes sets of both sorts of layout
    let mut trial = Trial::with_samplers(&rt, 8, &[0])?;
    trial.expect_layout(&[], 2, Ok(2))?;
    trial.expect_pool(2, &[], 3, Ok(3))?;
    trial.expect_sets(&[(3, 1, Ok(4)), (3, 2, Ok(5))])?;
    assert!(rt; !trial.device.is_marked());
    Ok(())
}

// Set 3 of layout 1 in pool 2 has two samplers in binding 0 and a uniform buffer in binding 1. There are three images and a buffer to write.
fn is_marked_by(rt: &(impl Abort + AllocGlobal), write: Write) -> Result<bool, Fail> {
    let mut trial = Trial::open(rt, 8)?;
    let bindings = [binding(Kind::Sampler, 2), binding(Kind::UniformBuffer, 1)];
    let sizes = [size(Kind::Sampler, 2), size(Kind::UniformBuffer, 1)];
    trial.expect_layout(&bindings, 0, Ok(1))?;
    trial.expect_pool(1, &sizes, 1, Ok(2))?;
    trial.expect_sets(&[(2, 1, Ok(3))])?;
    let buffer = BufferRecord {
        buffer: 7,
        offset: 0,
        range: 4,
    };
    trial.device.update_sets(
        &[write],
        Records {
            images: &[sampler(4), sampler(5), sampler(6)],
            buffers: &[buffer],
            accelerations: &[],
        },
    );
    trial.expect_held([1, 1, 1, 3])?;
    let marked = trial.device.is_marked();
    let written = trial.device.read_back(3, 0, 0).is_some()
        || trial.device.read_back(3, 0, 1).is_some()
        || trial.device.read_back(3, 1, 0).is_some();
    assert!(rt; marked != written);
    Ok(marked)
}

#[test]
fn invalid_writes(rt: HostRuntime) -> Result<(), Fail> {
    let valid = Write {
        set: 3,
        binding: 0,
        element: 0,
        descriptor_type: 0,
        count: 2,
        start: 1,
    };
    let buffer = Write {
        binding: 1,
        descriptor_type: 6,
        count: 1,
        start: 0,
        ..valid
    };
    assert!(rt; !is_marked_by(&rt, valid)?);
    assert!(rt; !is_marked_by(&rt, buffer)?);
    let wrong = [
        // no such set; no such binding
        Write { set: 9, ..valid },
        Write { set: 1, ..valid },
        Write {
            binding: 2,
            ..valid
        },
        Write {
            binding: u32::MAX,
            ..valid
        },
        // another type than the binding's
        Write {
            descriptor_type: 2,
            ..valid
        },
        Write {
            descriptor_type: OTHER_TYPE,
            ..valid
        },
        Write {
            descriptor_type: 7,
            ..buffer
        },
        // elements and counts
        Write {
            element: 1,
            count: 1,
            ..valid
        },
        Write {
            element: u32::MAX,
            ..valid
        },
        Write { count: 0, ..valid },
        Write {
            count: 3,
            start: 0,
            ..valid
        },
        Write {
            count: u32::MAX,
            start: 0,
            ..valid
        },
        // records past the end of the list of their kind
        Write { start: 2, ..valid },
        Write {
            start: usize::MAX,
            ..valid
        },
        Write { start: 1, ..buffer },
    ];
    for write in wrong {
        assert!(rt; is_marked_by(&rt, write)?);
    }
    Ok(())
}

// Pools 2 and 3 have a place for one set of layout 1; set 4 is in pool 2.
#[test]
fn nothing_there(rt: HostRuntime) -> Result<(), Fail> {
    let mut trial = Trial::with_samplers(&rt, 8, &[0])?;
    trial.expect_pool(1, &[], 1, Ok(2))?;
    trial.expect_pool(1, &[], 1, Ok(3))?;
    trial.expect_sets(&[(2, 1, Ok(4))])?;
    for other in [0, 4, 9] {
        trial.device.destroy_layout(other);
        trial.device.destroy_pool(other);
        assert!(rt; !trial.device.free_set(other, 4) && !trial.device.free_set(2, 0));
    }
    trial.device.destroy_layout(2);
    trial.device.destroy_pool(1);
    assert!(rt; !trial.device.free_set(3, 4) && !trial.device.free_set(2, 9));
    trial.expect_held([1, 2, 1, 0])?;
    assert!(rt; trial.device.free_set(2, 4) && !trial.device.free_set(2, 4));
    for _ in 0..2 {
        trial.device.destroy_pool(2);
        trial.device.destroy_layout(1);
    }
    trial.expect_held([0, 1, 0, 0])?;
    assert!(rt; !trial.device.is_marked());
    Ok(())
}
