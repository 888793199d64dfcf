// What the trials ask a device for, and what they see of it. Handles rise from 1, so the trials know them.
use conversion::bindings::DeviceBinding;
use conversion::kinds::Kind;
use counting::counting::CountingDevice;
use device::faults::DeviceFault;
use device::meaning::Device;
use device::records::{Content, Descriptor, ImageRecord, PoolSize, Records, Write};
use std::process::Abort;
use std::test::*;

// The result numbers that are due, as the rules have them. Numbers here and in what is due below: an enum would need a second table of them.
pub(crate) const INVALID: i32 = -13;

pub(crate) const EXHAUSTED: i32 = -1000069000;

// No free row, or too many bindings.
pub(crate) const NO_ROW: i32 = -1;

// No room for the descriptors.
pub(crate) const NO_ROOM: i32 = -2;

// A type of Vulkan's that is none of the eight.
pub(crate) const OTHER_TYPE: u32 = 1;

pub(crate) fn binding(kind: Kind, count: u32) -> DeviceBinding {
    DeviceBinding {
        descriptor_type: u32::from(kind),
        count,
        stages: 1,
        flags: 0,
    }
}

pub(crate) fn size(kind: Kind, count: u32) -> PoolSize {
    PoolSize {
        descriptor_type: u32::from(kind),
        count,
    }
}

pub(crate) fn sampler(handle: u64) -> ImageRecord {
    ImageRecord {
        sampler: handle,
        view: 0,
        layout: 0,
    }
}

// A call's records, where all are images.
pub(crate) fn images(images: &[ImageRecord]) -> Records<'_> {
    Records {
        images,
        buffers: &[],
        accelerations: &[],
    }
}

// Samplers to binding 0 of a set, from the start of the list of images.
pub(crate) fn samplers_to(set: u64, count: u32) -> Write {
    Write {
        set,
        binding: 0,
        element: 0,
        descriptor_type: 0,
        count,
        start: 0,
    }
}

// A device, with the runtime that its checks need.
#[derive(Drop)]
pub(crate) struct Trial<'a, R> {
    rt: &'a R,
    pub(crate) device: CountingDevice,
}

impl<'a, R: Abort + AllocGlobal> Trial<'a, R> {
    pub(crate) fn open(rt: &'a R, records: usize) -> Result<Trial<'a, R>, Fail> {
        let device = CountingDevice::open(rt.alloc(), records)?;
        Ok(Trial { rt, device })
    }

    // With a layout of each of these numbers of samplers, from handle 1 on. One of 0 has no binding.
    pub(crate) fn with_samplers(
        rt: &'a R,
        records: usize,
        samplers: &[u32],
    ) -> Result<Trial<'a, R>, Fail> {
        let mut trial = Trial::open(rt, records)?;
        for (handle, count) in (1..u64::MAX).zip(samplers.iter()) {
            if *count == 0 {
                trial.expect_layout(&[], 0, Ok(handle))?;
            } else {
                trial.expect_layout(&[binding(Kind::Sampler, *count)], 0, Ok(handle))?;
            }
        }
        Ok(trial)
    }

    // Compares an answer with the handle or the result number that is due, and the call that a refusal names.
    fn expect(
        &self,
        answer: Result<u64, DeviceFault>,
        call: u32,
        due: Result<u64, i32>,
    ) -> Result<(), Fail> {
        match answer {
            Ok(handle) => {
                assert_eq!(self.rt; Ok(handle), due);
                Ok(())
            }
            Err(fault) => {
                assert_eq!(self.rt; u32::from(fault.call), call);
                assert_eq!(self.rt; Err(fault.result), due);
                Ok(())
            }
        }
    }

    pub(crate) fn expect_layout(
        &mut self,
        bindings: &[DeviceBinding],
        flags: u32,
        due: Result<u64, i32>,
    ) -> Result<(), Fail> {
        let answer = self.device.create_layout(bindings, flags);
        self.expect(answer, 1, due)
    }

    pub(crate) fn expect_pool(
        &mut self,
        most: u32,
        sizes: &[PoolSize],
        flags: u32,
        due: Result<u64, i32>,
    ) -> Result<(), Fail> {
        let answer = self.device.create_pool(most, sizes, flags);
        self.expect(answer, 2, due)
    }

    // Each call names a pool, a layout and the answer that is due.
    pub(crate) fn expect_sets(
        &mut self,
        calls: &[(u64, u64, Result<u64, i32>)],
    ) -> Result<(), Fail> {
        for (pool, layout, due) in calls {
            let answer = self.device.allocate_set(*pool, *layout);
            self.expect(answer, 3, *due)?;
        }
        Ok(())
    }

    // Layouts, pools, sets and descriptors; four numbers and no `Tally`, since most rows would be its field names.
    pub(crate) fn expect_held(&self, due: [usize; 4]) -> Result<(), Fail> {
        let tally = self.device.tally();
        assert_eq!(self.rt;
            [tally.layouts, tally.pools, tally.sets, tally.descriptors],
            due
        );
        Ok(())
    }

    // Each row names a set, an element of its binding 0, and the sampler that is due there, or none.
    pub(crate) fn expect_samplers(&self, rows: &[(u64, u32, Option<u64>)]) -> Result<(), Fail> {
        for (set, element, due) in rows {
            let found = match self.device.read_back(*set, 0, *element) {
                Some(
                    Descriptor {
                        kind,
                        content: Content::Image(image),
                    },
                ) if u32::from(kind) == 0 => Some(image.sampler),
                _ => None,
            };
            assert_eq!(self.rt; found, *due);
        }
        Ok(())
    }
}
