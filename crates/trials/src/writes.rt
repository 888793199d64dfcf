// What writes put where, read back.
use crate::helpers::*;
use conversion::kinds::Kind;
use counting::counting::CountingDevice;
use device::meaning::Device;
use device::records::{AccelerationRecord, BufferRecord, Content, ImageRecord, Records, Write};
use std::process::Abort;
use std::test::*;

// The type number in element 0 of a binding of set 3, and its record.
fn element_at(device: &CountingDevice, binding: u32) -> Option<(u32, Content)> {
    let descriptor = device.read_back(3, binding, 0)?;
    Some((u32::from(descriptor.kind), descriptor.content))
}

fn image(sampler: u64, view: u64, layout: u32) -> Content {
    Content::Image(ImageRecord {
        sampler,
        view,
        layout,
    })
}

fn buffer(buffer: u64, offset: u64, range: u64) -> Content {
    Content::Buffer(BufferRecord {
        buffer,
        offset,
        range,
    })
}

// Layout 1 has a binding of each kind, in key order; that of the sampled image has two elements. Set 3 is in pool 2.
fn open_with_each_kind<R: Abort + AllocGlobal>(rt: &R) -> Result<Trial<'_, R>, Fail> {
    let mut trial = Trial::open(rt, 9)?;
    let bindings = [
        binding(Kind::Sampler, 1),
        binding(Kind::SampledImage, 2),
        binding(Kind::StorageImage, 1),
        binding(Kind::UniformBuffer, 1),
        binding(Kind::UniformBufferDynamic, 1),
        binding(Kind::StorageBuffer, 1),
        binding(Kind::StorageBufferDynamic, 1),
        binding(Kind::AccelerationStructure, 1),
    ];
    let sizes = [
        size(Kind::Sampler, 1),
        size(Kind::SampledImage, 2),
        size(Kind::StorageImage, 1),
        size(Kind::UniformBuffer, 1),
        size(Kind::UniformBufferDynamic, 1),
        size(Kind::StorageBuffer, 1),
        size(Kind::StorageBufferDynamic, 1),
        size(Kind::AccelerationStructure, 1),
    ];
    trial.expect_layout(&bindings, 0, Ok(1))?;
    trial.expect_pool(1, &sizes, 1, Ok(2))?;
    trial.expect_sets(&[(2, 1, Ok(3))])?;
    Ok(trial)
}

fn write(binding: u32, descriptor_type: u32, start: usize) -> Write {
    Write {
        set: 3,
        binding,
        element: 0,
        descriptor_type,
        count: 1,
        start,
    }
}

#[test]
fn each_kind(rt: HostRuntime) -> Result<(), Fail> {
    let mut trial = open_with_each_kind(&rt)?;
    let images = [
        ImageRecord {
            sampler: 0,
            view: 32,
            layout: 1,
        },
        ImageRecord {
            sampler: 0,
            view: 31,
            layout: 5,
        },
        sampler(30),
    ];
    let buffers = [
        BufferRecord {
            buffer: 40,
            offset: 1,
            range: 50,
        },
        BufferRecord {
            buffer: 41,
            offset: 2,
            range: 51,
        },
        BufferRecord {
            buffer: 42,
            offset: 3,
            range: 52,
        },
        BufferRecord {
            buffer: 43,
            offset: 4,
            range: u64::MAX,
        },
    ];
    let accelerations = [
        AccelerationRecord { handle: 60 },
        AccelerationRecord { handle: u64::MAX },
    ];
    let writes = [
        write(7, 1000150000, 1),
        write(0, 0, 2),
        write(1, 2, 1),
        write(2, 3, 0),
        write(3, 6, 0),
        write(4, 8, 1),
        write(5, 7, 2),
        write(6, 9, 3),
    ];
    trial.device.update_sets(
        &writes,
        Records {
            images: &images,
            buffers: &buffers,
            accelerations: &accelerations,
        },
    );
    assert!(rt; !trial.device.is_marked());
    for (binding, due) in [
        (0, (0, image(30, 0, 0))),
        (1, (2, image(0, 31, 5))),
        (2, (3, image(0, 32, 1))),
        (3, (6, buffer(40, 1, 50))),
        (4, (8, buffer(41, 2, 51))),
        (5, (7, buffer(42, 3, 52))),
        (6, (9, buffer(43, 4, u64::MAX))),
        (
            7,
            (
                1000150000,
                Content::Acceleration(AccelerationRecord { handle: u64::MAX }),
            ),
        ),
    ] {
        assert_eq!(rt; element_at(&trial.device, binding), Some(due));
    }
    assert!(rt; trial.device.read_back(3, 1, 1).is_none());
    assert!(rt; trial.device.read_back(3, 8, 0).is_none());
    assert!(rt; trial.device.read_back(3, 7, 1).is_none());
    Ok(())
}

// Sets 3 and 4 of layout 1 have three samplers each.
#[test]
fn order(rt: HostRuntime) -> Result<(), Fail> {
    let mut trial = Trial::with_samplers(&rt, 6, &[3])?;
    trial.expect_pool(2, &[size(Kind::Sampler, 6)], 1, Ok(2))?;
    trial.expect_sets(&[(2, 1, Ok(3)), (2, 1, Ok(4))])?;
    let list = [sampler(11), sampler(12), sampler(13), sampler(14)];
    // of two writes to element 0 the later counts, and element 1 keeps the earlier
    let later = Write {
        start: 3,
        ..samplers_to(3, 1)
    };
    trial
        .device
        .update_sets(&[samplers_to(3, 2), later], images(&list));
    assert!(rt; !trial.device.is_marked());
    trial.expect_samplers(&[
        (3, 0, Some(14)),
        (3, 1, Some(12)),
        (3, 2, None),
        (4, 0, None),
    ])?;
    // the write in the middle is invalid, its neighbours are not
    let invalid = Write {
        start: 2,
        ..samplers_to(3, 3)
    };
    let third = Write {
        start: 2,
        ..samplers_to(3, 1)
    };
    trial
        .device
        .update_sets(&[samplers_to(4, 1), invalid, third], images(&list));
    assert!(rt; trial.device.is_marked());
    trial.expect_samplers(&[
        (4, 0, Some(11)),
        (3, 0, Some(13)),
        (3, 1, Some(12)),
        (3, 2, None),
    ])
}
