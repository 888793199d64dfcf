// Descriptors counted by kind, and the key of a bucket.
ghost use Rattle.std.specs.Prelude.{◌≡◌, ◌+◌, ◌^◌, ◌<◌};
ghost use Rattle.conversion.specs.Counts.{count_of, total};
ghost use Rattle.conversion.specs.Layouts.{entry_count, counting};

use crate::entries::LayoutEntry;
use crate::kinds::{EntryKind, Kind};

// How many descriptors of each kind. The dynamic buffers have types of their own.
#[derive(Clone, Copy, Debug, Default, PartialEq, Eq)]
pub struct DescriptorCounts {
    pub sampler: u32,
    pub sampled_image: u32,
    pub storage_image: u32,
    pub uniform_buffer: u32,
    pub uniform_buffer_dynamic: u32,
    pub storage_buffer: u32,
    pub storage_buffer_dynamic: u32,
    pub acceleration_structure: u32,
}

// Layouts with one key share a bucket: the eight counts, and whether there is an array.
#[derive(Clone, Copy, Debug, PartialEq, Eq)]
pub struct BucketKey {
    pub counts: DescriptorCounts,
    pub arrays: bool,
}

impl DescriptorCounts {
    // Eight counts, each from its kind.
    pub fn by<F: Fn(Kind) -> u32>(count: F) -> DescriptorCounts
        requires { F.IsAlwaysCallable count }
        ensures { (kind : Kind) → F.post count kind (count_of result kind) }
    {
        DescriptorCounts {
            sampler: count(Kind::Sampler),
            sampled_image: count(Kind::SampledImage),
            storage_image: count(Kind::StorageImage),
            uniform_buffer: count(Kind::UniformBuffer),
            uniform_buffer_dynamic: count(Kind::UniformBufferDynamic),
            storage_buffer: count(Kind::StorageBuffer),
            storage_buffer_dynamic: count(Kind::StorageBufferDynamic),
            acceleration_structure: count(Kind::AccelerationStructure),
        }
    }

    // The count of one kind.
    pub fn of_kind(&self, kind: Kind) -> u32
        ensures { result ≡ count_of self.now kind }
    {
        match kind {
            Kind::Sampler => self.sampler,
            Kind::SampledImage => self.sampled_image,
            Kind::StorageImage => self.storage_image,
            Kind::UniformBuffer => self.uniform_buffer,
            Kind::UniformBufferDynamic => self.uniform_buffer_dynamic,
            Kind::StorageBuffer => self.storage_buffer,
            Kind::StorageBufferDynamic => self.storage_buffer_dynamic,
            Kind::AccelerationStructure => self.acceleration_structure,
        }
    }

    // One entry more, an arm for each field that changes. The caller keeps the total within 32 bits.
    pub(crate) fn add_entry(&mut self, entry: &LayoutEntry)
        requires { total self.old + entry_count entry.now < 2 ^ 32 }
        ensures { self.new ≡ counting self.old entry.now }
    {
        let n = entry.count();
        match entry.kind {
            EntryKind::Descriptor(Kind::Sampler) => self.sampler += n,
            EntryKind::Descriptor(Kind::SampledImage) => self.sampled_image += n,
            EntryKind::Descriptor(Kind::StorageImage) => self.storage_image += n,
            EntryKind::Descriptor(Kind::UniformBuffer) => self.uniform_buffer += n,
            EntryKind::Descriptor(Kind::UniformBufferDynamic) => self.uniform_buffer_dynamic += n,
            EntryKind::Descriptor(Kind::StorageBuffer) => self.storage_buffer += n,
            EntryKind::Descriptor(Kind::StorageBufferDynamic) => self.storage_buffer_dynamic += n,
            EntryKind::Descriptor(Kind::AccelerationStructure) => self.acceleration_structure += n,
            EntryKind::ExternalTexture => {}
        }
    }

    // All descriptors together. Eight 32-bit numbers fit; term by term, since of their sum over `KINDS` that stayed open.
    pub fn total(&self) -> u64
        ensures { result ≡ total self.now }
    {
        u64::from(self.sampler)
            + u64::from(self.sampled_image)
            + u64::from(self.storage_image)
            + u64::from(self.uniform_buffer)
            + u64::from(self.uniform_buffer_dynamic)
            + u64::from(self.storage_buffer)
            + u64::from(self.storage_buffer_dynamic)
            + u64::from(self.acceleration_structure)
    }
}
