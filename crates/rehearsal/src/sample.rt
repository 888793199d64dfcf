// Sample resources, and the writes that put one into element 0 of each binding of a set.
use conversion::bindings::DeviceBinding;
use conversion::kinds::Kind;
use device::records::{AccelerationRecord, BufferRecord, ImageRecord, RecordList, Records, Write};
use std::alloc::{AllocError, Global};

// The handle of the resource for binding 0; the others count up from it.
const FIRST_RESOURCE: u64 = 101;

// VkImageLayout, VK_IMAGE_LAYOUT_SHADER_READ_ONLY_OPTIMAL
const SHADER_READ_ONLY: u32 = 5;

// How many bytes of a buffer are shown.
const BUFFER_RANGE: u64 = 256;

#[derive(Drop)]
pub(crate) struct Sample {
    pub(crate) writes: Vec<Write>,
    images: Vec<ImageRecord>,
    buffers: Vec<BufferRecord>,
    accelerations: Vec<AccelerationRecord>,
}

fn image_of(kind: Kind, resource: u64) -> ImageRecord {
    match kind {
        Kind::Sampler => ImageRecord {
            sampler: resource,
            view: 0,
            layout: 0,
        },
        _ => ImageRecord {
            sampler: 0,
            view: resource,
            layout: SHADER_READ_ONLY,
        },
    }
}

impl Sample {
    pub(crate) fn for_set(
        heap: Global,
        set: u64,
        bindings: &[DeviceBinding],
    ) -> Result<Sample, AllocError> {
        let mut sample = Sample {
            writes: Vec::new(heap),
            images: Vec::new(heap),
            buffers: Vec::new(heap),
            accelerations: Vec::new(heap),
        };
        // A write names its binding by a `u32`, so the positions are counted as such.
        for (position, binding) in (0..u32::MAX).zip(bindings.iter()) {
            let descriptor_type = binding.descriptor_type;
            if let Ok(kind) = Kind::try_from(descriptor_type) {
                let start = sample.add_record(kind, FIRST_RESOURCE + u64::from(position))?;
                sample.writes.push(Write {
                    set,
                    binding: position,
                    element: 0,
                    descriptor_type,
                    count: 1,
                    start,
                })?;
            }
        }
        Ok(sample)
    }

    pub(crate) fn records(&self) -> Records<'_> {
        Records {
            images: &self.images,
            buffers: &self.buffers,
            accelerations: &self.accelerations,
        }
    }

    // Adds the record of a resource, and answers its place in the list of its kind.
    fn add_record(&mut self, kind: Kind, resource: u64) -> Result<usize, AllocError> {
        match RecordList::from(kind) {
            RecordList::Images => push_at(&mut self.images, image_of(kind, resource)),
            RecordList::Buffers => push_at(
                &mut self.buffers,
                BufferRecord {
                    buffer: resource,
                    offset: 0,
                    range: BUFFER_RANGE,
                },
            ),
            RecordList::Accelerations => push_at(
                &mut self.accelerations,
                AccelerationRecord { handle: resource },
            ),
        }
    }
}

// Adds a record, and answers its place.
fn push_at<T: Drop>(list: &mut Vec<T>, record: T) -> Result<usize, AllocError> {
    let place = list.len();
    list.push(record)?;
    Ok(place)
}
