// The accepted layouts on the counting device: each is made, used for one set, and destroyed again.
// Values of other crates are printed by functions: a type of this crate round each, for its `Display`, would be longer.
use crate::sample::Sample;
use conversion::bindings::{DeviceBinding, device_bindings, layout_flags, pool_flags};
use conversion::checks::{MAX_ENTRIES, check_layout};
use conversion::counts::BucketKey;
use conversion::faults::FaultReport;
use conversion::kinds::{KINDS, Kind};
use conversion::results::DeviceError;
use counting::counting::CountingDevice;
use device::faults::DeviceFault;
use device::meaning::Device;
use device::records::{Content, Descriptor, PoolSize};
use layouts::Layout;
use script::names::KIND_NAMES;
use std::alloc::{AllocError, Global};
use std::io;

// How many descriptors the device has room for.
const ROOM: usize = 1024;

// A look-up, since the names are of the script and not of the kind.
fn kind_name(kind: Kind) -> &'static str {
    KIND_NAMES[kind.place()]
}

// Prints what a making call answered, and hands on the handle if it made something.
fn print_answer(rt: &impl Print, answer: Result<u64, DeviceFault>) -> io::Result<Option<u64>> {
    match answer {
        Ok(handle) => println!(rt; "handle {handle}")?,
        Err(fault) => {
            println!(rt;
                "refused, {fault} (refusal {}, {})",
                FaultReport::from(fault).number,
                DeviceError::from(fault)
            )?;
        }
    }
    Ok(answer.ok())
}

fn print_descriptor(rt: &impl Print, descriptor: &Descriptor) -> io::Result<()> {
    let name = kind_name(descriptor.kind);
    match descriptor.content {
        Content::Image(image) => println!(rt;
            "{name}, sampler {}, view {}, image layout {}",
            image.sampler, image.view, image.layout
        ),
        Content::Buffer(part) => println!(rt;
            "{name}, buffer {}, offset {}, range {}",
            part.buffer, part.offset, part.range
        ),
        Content::Acceleration(structure) => println!(rt; "{name}, structure {}", structure.handle),
    }
}

// What a pool for one set with that key is made with.
fn pool_sizes(heap: Global, key: &BucketKey) -> Result<Vec<PoolSize>, AllocError> {
    KINDS
        .iter()
        .map(|kind| PoolSize {
            descriptor_type: u32::from(*kind),
            count: key.counts.of_kind(*kind),
        })
        .filter(|size| size.count > 0)
        .collect(heap)
}

fn print_sizes(rt: &impl Print, sizes: &[PoolSize]) -> io::Result<()> {
    if sizes.is_empty() {
        print!(rt; "no descriptors")?;
    }
    for (i, size) in sizes.iter().enumerate() {
        let comma = if i == 0 { "" } else { ", " };
        let name = Kind::try_from(size.descriptor_type).map_or("unknown", kind_name);
        print!(rt; "{comma}{name} {}", size.count)?;
    }
    Ok(())
}

#[derive(Drop)]
struct Rehearsal<'a> {
    rt: &'a HostRuntime,
    device: CountingDevice,
}

impl<'a> Rehearsal<'a> {
    fn print_tally(&self) -> io::Result<()> {
        println!(self.rt; "  held: {}", self.device.tally())
    }

    // Writes a sample to each binding of a set in one call, and reads all back.
    fn fill_set(&mut self, set: u64, bindings: &[DeviceBinding]) -> anyhow::Result<()> {
        let rt = self.rt;
        let sample = Sample::for_set(rt.alloc(), set, bindings)?;
        self.device.update_sets(&sample.writes, sample.records());
        println!(rt;
            "  write to set {set}, bindings {}, element 0 of each: no answer",
            sample.writes.len()
        )?;
        for write in sample.writes.iter() {
            let binding = write.binding;
            let element = write.element;
            print!(rt; "  read binding {binding}, element {element}: ")?;
            match self.device.read_back(set, binding, element) {
                Some(descriptor) => print_descriptor(rt, &descriptor)?,
                None => rt.println("nothing")?,
            }
        }
        self.print_tally()?;
        Ok(())
    }

    // Makes a set, fills it and frees it.
    fn try_set(
        &mut self,
        pool: u64,
        layout: u64,
        bindings: &[DeviceBinding],
    ) -> anyhow::Result<()> {
        let rt = self.rt;
        print!(rt; "  make set in pool {pool} with layout {layout}: ")?;
        if let Some(set) = print_answer(rt, self.device.allocate_set(pool, layout))? {
            self.fill_set(set, bindings)?;
            let freed = if self.device.free_set(pool, set) {
                "yes"
            } else {
                "no"
            };
            println!(rt; "  free set {set} of pool {pool}: {freed}")?;
        }
        Ok(())
    }

    // Makes a pool for one set, tries a set in it, and destroys it.
    fn try_pool(
        &mut self,
        layout: u64,
        bindings: &[DeviceBinding],
        key: &BucketKey,
    ) -> anyhow::Result<()> {
        let rt = self.rt;
        let sizes = pool_sizes(rt.alloc(), key)?;
        let flags = pool_flags(key);
        print!(rt; "  make pool of 1 set (")?;
        print_sizes(rt, &sizes)?;
        print!(rt; "), flags {flags:#x}: ")?;
        if let Some(pool) = print_answer(rt, self.device.create_pool(1, &sizes, flags))? {
            self.try_set(pool, layout, bindings)?;
            self.device.destroy_pool(pool);
            println!(rt; "  destroy pool {pool}: no answer")?;
        }
        Ok(())
    }

    // Makes a layout, tries a pool for it, and destroys it.
    fn try_layout(&mut self, layout: &Layout, key: &BucketKey) -> anyhow::Result<()> {
        let rt = self.rt;
        let count = layout.entries.len();
        let rows = device_bindings(&layout.entries, layout.partially_bound);
        let bindings = &rows[..count.min(MAX_ENTRIES)];
        let flags = layout_flags(key);
        println!(rt; "on the counting device, layout {}", layout.name)?;
        print!(rt; "  make layout of bindings {count}, flags {flags:#x}: ")?;
        if let Some(handle) = print_answer(rt, self.device.create_layout(bindings, flags))? {
            self.try_pool(handle, bindings, key)?;
            self.device.destroy_layout(handle);
            println!(rt; "  destroy layout {handle}: no answer")?;
        }
        Ok(())
    }
}

// All accepted layouts in order, on one device. Without a layout there is nothing to run.
pub(crate) fn run_layouts(rt: &HostRuntime, layouts: &[Layout]) -> anyhow::Result<()> {
    if layouts.is_empty() {
        return Ok(());
    }
    let device = CountingDevice::open(rt.alloc(), ROOM)?;
    let mut rehearsal = Rehearsal { rt, device };
    for layout in layouts {
        if let Ok(key) = check_layout(&layout.entries) {
            rehearsal.try_layout(layout, &key)?;
        }
    }
    println!(rt; "on the counting device, at the end")?;
    rehearsal.print_tally()?;
    let mark = if rehearsal.device.is_marked() {
        "set"
    } else {
        "not set"
    };
    println!(rt; "  mark: {mark}")?;
    Ok(())
}
