// What the device is told of a layout.
ghost use Rattle.std.specs.Prelude.{◌≡◌};
ghost use Rattle.conversion.specs.Layouts.{binding_flags, device_binding, binding_rows, layout_flags, pool_flags};

use crate::checks::MAX_ENTRIES;
use crate::counts::BucketKey;
use crate::entries::LayoutEntry;
use crate::kinds::map_binding_type;
use crate::stages::map_shader_stage;

// VkDescriptorBindingFlagBits
const BINDING_UPDATE_AFTER_BIND: u32 = 1;

const BINDING_PARTIALLY_BOUND: u32 = 4;

// VkDescriptorSetLayoutCreateFlagBits
const LAYOUT_UPDATE_AFTER_BIND_POOL: u32 = 2;

// VkDescriptorPoolCreateFlagBits
const POOL_FREE_DESCRIPTOR_SET: u32 = 1;

pub const POOL_UPDATE_AFTER_BIND: u32 = 2;

// A type that no key counts, for an entry that has no type.
const UNCOUNTED_TYPE: u32 = 1;

// A binding as the device has it, all in Vulkan's numbers.
// The type stays a number: a device can be asked for one that no kind has, and has to refuse it.
#[derive(Clone, Copy, Debug, Default, PartialEq, Eq)]
pub struct DeviceBinding {
    pub descriptor_type: u32,
    pub count: u32,
    pub stages: u32,
    pub flags: u32,
}

fn binding_flags(entry: &LayoutEntry, partially_bound: bool) -> u32
    ensures { result ≡ binding_flags partially_bound entry.now }
{
    if !entry.is_array() {
        return 0;
    }
    if partially_bound {
        BINDING_UPDATE_AFTER_BIND | BINDING_PARTIALLY_BOUND
    } else {
        BINDING_UPDATE_AFTER_BIND
    }
}

impl LayoutEntry {
    pub fn device_binding(&self, partially_bound: bool) -> DeviceBinding
        ensures { result ≡ device_binding partially_bound self.now }
    {
        DeviceBinding {
            descriptor_type: map_binding_type(self.kind).unwrap_or(UNCOUNTED_TYPE),
            count: self.count(),
            stages: map_shader_stage(self.stages),
            flags: binding_flags(self, partially_bound),
        }
    }
}

pub fn layout_flags(key: &BucketKey) -> u32
    ensures { result ≡ layout_flags key.now }
{
    if key.arrays {
        LAYOUT_UPDATE_AFTER_BIND_POOL
    } else {
        0
    }
}

pub fn pool_flags(key: &BucketKey) -> u32
    ensures { result ≡ pool_flags key.now }
{
    if key.arrays {
        POOL_FREE_DESCRIPTOR_SET | POOL_UPDATE_AFTER_BIND
    } else {
        POOL_FREE_DESCRIPTOR_SET
    }
}

// Binding i of the device layout is entry i. Rows past the last entry hold zeros, and entries past the last row are left out.
pub fn device_bindings(
    entries: &[LayoutEntry],
    partially_bound: bool,
) -> [DeviceBinding; MAX_ENTRIES]
    ensures { result ≡ binding_rows partially_bound entries.now }
{
    let mut rows = [DeviceBinding::default(); MAX_ENTRIES];
    for (i, entry) in entries[..entries.len().min(MAX_ENTRIES)].iter().enumerate() {
        rows[i] = entry.device_binding(partially_bound);
    }
    rows
}
