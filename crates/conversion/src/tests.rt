// What the contracts do not say by themselves: that the definitions' numbers are Vulkan's, and the refusals at their edges.
use crate::bindings::*;
use crate::checks::*;
use crate::counts::*;
use crate::entries::*;
use crate::faults::*;
use crate::kinds::*;
use crate::results::*;
use crate::stages::map_shader_stage;
use std::test::Fail;

fn entry(binding: u32, kind: Kind, array: u32) -> LayoutEntry {
    LayoutEntry {
        binding,
        kind: EntryKind::Descriptor(kind),
        array,
        stages: 1,
    }
}

// The number of the refusal and the entry that it names.
fn refusal(entries: &[LayoutEntry]) -> Option<(u32, usize)> {
    match check_layout(entries) {
        Ok(_) => None,
        Err(fault) => {
            let report = FaultReport::from(fault);
            Some((report.number, report.entry))
        }
    }
}

// VkDescriptorType
#[test]
fn type_numbers(rt: HostRuntime) {
    let table = [
        (Kind::Sampler, 0),
        (Kind::SampledImage, 2),
        (Kind::StorageImage, 3),
        (Kind::UniformBuffer, 6),
        (Kind::UniformBufferDynamic, 8),
        (Kind::StorageBuffer, 7),
        (Kind::StorageBufferDynamic, 9),
        (Kind::AccelerationStructure, 1000150000),
    ];
    for (place, (kind, number)) in table.iter().enumerate() {
        assert_eq!(rt; kind.place(), place);
        assert!(rt; Kind::at_place(place) == Some(*kind));
        assert_eq!(rt;
            map_binding_type(EntryKind::Descriptor(*kind)),
            Some(*number)
        );
        assert!(rt; Kind::try_from(*number) == Ok(*kind));
    }
    assert!(rt; Kind::at_place(8).is_none());
    assert!(rt; Kind::try_from(1) == Err(UnknownType(1)));
    assert_eq!(rt; map_binding_type(EntryKind::ExternalTexture), None);
}

// VkShaderStageFlagBits: vertex, fragment, compute, task, mesh, ray generation, miss, any hit, closest hit
#[test]
fn stage_flags(rt: HostRuntime) {
    let flags = [0x1, 0x10, 0x20, 0x40, 0x80, 0x100, 0x800, 0x200, 0x400];
    let mut stages = 1;
    for flag in flags {
        assert_eq!(rt; map_shader_stage(stages), flag);
        stages = stages.wrapping_mul(2);
    }
    assert_eq!(rt; stages, 0x200);
    assert_eq!(rt; map_shader_stage(stages), 0);
    assert_eq!(rt; map_shader_stage(0), 0);
    assert_eq!(rt; map_shader_stage(u32::MAX), 0xff1);
}

#[test]
fn flags(rt: HostRuntime) -> Result<(), Fail> {
    let single = entry(0, Kind::Sampler, 0);
    let array = entry(0, Kind::Sampler, 1);
    assert_eq!(rt; single.device_binding(true).flags, 0);
    assert_eq!(rt; array.device_binding(false).flags, 1);
    assert_eq!(rt; array.device_binding(true).flags, 5);
    let plain = check_layout(&[single]).ok().ok_or("refused")?;
    let arrays = check_layout(&[array]).ok().ok_or("refused")?;
    assert_eq!(rt; (layout_flags(&plain), pool_flags(&plain)), (0, 1));
    assert_eq!(rt; (layout_flags(&arrays), pool_flags(&arrays)), (2, 3));
    Ok(())
}

// Refusals go by their numbers, and not by the order of entries.
#[test]
fn refusals(rt: HostRuntime) {
    let outside = LayoutEntry {
        binding: 0,
        kind: EntryKind::ExternalTexture,
        array: 0,
        stages: 0,
    };
    let late = LayoutEntry {
        binding: 9,
        ..outside
    };
    let most = entry(0, Kind::Sampler, u32::MAX);
    let buffer = entry(1, Kind::UniformBuffer, 0);
    let many = [entry(0, Kind::Sampler, 0); 33];
    assert_eq!(rt; refusal(&many), Some((1, 32)));
    assert_eq!(rt; refusal(&many[0..32]), Some((2, 1)));
    assert_eq!(rt;
        refusal(&[outside, entry(0, Kind::Sampler, 0)]),
        Some((2, 1))
    );
    assert_eq!(rt; refusal(&[outside, buffer]), Some((3, 0)));
    assert_eq!(rt; refusal(&[most, outside]), Some((2, 1)));
    assert_eq!(rt; refusal(&[most, buffer, late]), Some((3, 2)));
    assert_eq!(rt; refusal(&[most, buffer]), Some((4, 1)));
    assert_eq!(rt;
        refusal(&[entry(0, Kind::Sampler, u32::MAX - 1), buffer]),
        None
    );
    assert_eq!(rt; refusal(&[]), None);
}

// One bucket whatever the order, the bindings and the stages; another where an array takes the place of singles.
#[test]
fn keys(rt: HostRuntime) -> Result<(), Fail> {
    let buffer = entry(3, Kind::UniformBuffer, 0);
    let sampler = LayoutEntry {
        stages: 0x1ff,
        ..entry(4, Kind::Sampler, 0)
    };
    let one = check_layout(&[buffer, sampler]).ok().ok_or("refused")?;
    let other = check_layout(&[entry(0, Kind::Sampler, 0), entry(7, Kind::UniformBuffer, 0)])
        .ok()
        .ok_or("refused")?;
    assert!(rt; one == other);
    let singles = check_layout(&[entry(0, Kind::Sampler, 0), entry(1, Kind::Sampler, 0)])
        .ok()
        .ok_or("refused")?;
    let array = check_layout(&[entry(0, Kind::Sampler, 2)])
        .ok()
        .ok_or("refused")?;
    assert_eq!(rt; singles.counts.total(), 2);
    assert!(rt; singles.counts == array.counts);
    assert!(rt; singles != array);
    Ok(())
}

// VkResult, and the calls' own numbers
#[test]
fn results(rt: HostRuntime) {
    let calls = [DeviceCall::Layout, DeviceCall::Pool, DeviceCall::Set];
    for (i, call) in calls.iter().enumerate() {
        assert_eq!(rt; u32::from(*call) as usize, i + 1);
        assert_eq!(rt; u32::from(map_result(*call, -1)), 13);
        assert_eq!(rt; u32::from(map_result(*call, -2)), 13);
        for other in [-1000069000, -13, -12, -4, -3, 0, 1, i32::MAX, i32::MIN] {
            assert_eq!(rt; u32::from(map_result(*call, other)), 14);
        }
    }
    assert_eq!(rt; u32::from(map_result(DeviceCall::Pool, -1000161000)), 13);
    assert_eq!(rt; u32::from(map_result(DeviceCall::Layout, -1000161000)), 14);
    assert_eq!(rt; u32::from(map_result(DeviceCall::Set, -1000161000)), 14);
}
