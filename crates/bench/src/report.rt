// What is printed of a layout. By functions: a type of this crate round each of conversion's, for its `Display`, would be longer.
use conversion::bindings::{DeviceBinding, device_bindings, layout_flags};
use conversion::checks::check_layout;
use conversion::counts::BucketKey;
use conversion::entries::LayoutEntry;
use conversion::faults::{FaultReport, LayoutFault};
use conversion::kinds::KINDS;
use layouts::Layout;
use script::names::KIND_NAMES;
use std::io;

fn print_refusal(rt: &impl Print, fault: LayoutFault) -> io::Result<()> {
    let report = FaultReport::from(fault);
    println!(rt;
        "  refusal {}, layer {}, entry {}: {fault}",
        report.number,
        u32::from(report.layer),
        report.entry
    )
}

fn print_binding(
    rt: &impl Print,
    index: usize,
    entry: &LayoutEntry,
    binding: &DeviceBinding,
) -> io::Result<()> {
    println!(rt;
        "  binding {index} (entry binding {}): type {}, count {}, stages {:#x}, flags {:#x}",
        entry.binding, binding.descriptor_type, binding.count, binding.stages, binding.flags
    )
}

fn print_counts(rt: &impl Print, key: &BucketKey) -> io::Result<()> {
    print!(rt; "  counts:")?;
    for (i, (kind, name)) in KINDS.iter().zip(KIND_NAMES.iter()).enumerate() {
        let comma = if i == 0 { "" } else { "," };
        print!(rt; "{comma} {name} {}", key.counts.of_kind(*kind))?;
    }
    println!(rt; "")
}

fn print_key(rt: &impl Print, key: &BucketKey) -> io::Result<()> {
    print!(rt; "  key:")?;
    for kind in KINDS {
        print!(rt; " {}", key.counts.of_kind(kind))?;
    }
    let arrays = if key.arrays {
        "with an array"
    } else {
        "without an array"
    };
    println!(rt; ", {arrays}")
}

fn print_accepted(rt: &impl Print, layout: &Layout, key: &BucketKey) -> io::Result<()> {
    let bindings = device_bindings(&layout.entries, layout.partially_bound);
    for (index, (entry, binding)) in layout.entries.iter().zip(bindings.iter()).enumerate() {
        print_binding(rt, index, entry, binding)?;
    }
    println!(rt; "  layout flags: {:#x}", layout_flags(key))?;
    print_counts(rt, key)?;
    println!(rt; "  total: {}", key.counts.total())?;
    print_key(rt, key)
}

// What the device would be asked for, or the refusal.
fn print_layout(rt: &impl Print, layout: &Layout) -> io::Result<()> {
    let count = layout.entries.len();
    let entries = if count == 1 { "entry" } else { "entries" };
    let partially = if layout.partially_bound {
        ", partially bound"
    } else {
        ""
    };
    println!(rt; "layout {}: {count} {entries}{partially}", layout.name)?;
    match check_layout(&layout.entries) {
        Ok(key) => print_accepted(rt, layout, &key),
        Err(fault) => print_refusal(rt, fault),
    }
}

pub(crate) fn print_layouts(rt: &impl Print, layouts: &[Layout]) -> io::Result<()> {
    for layout in layouts {
        print_layout(rt, layout)?;
    }
    Ok(())
}
