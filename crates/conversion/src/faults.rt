// Why entries make no layout, and how a fault is reported.
ghost use Rattle.std.specs.Prelude.{◌≡◌};
ghost use Rattle.conversion.specs.Faults.{layer_number, report_of};

use std::error::Error;
use std::fmt;

// The layer that refuses.
#[derive(Clone, Copy, Debug, PartialEq, Eq)]
pub enum Layer {
    // layouts and groups
    Group,
    Allocator,
    Device,
}

impl From<Layer> for u32 {
    ghost from_gives = { λ layer number. number ≡ layer_number layer };

    fn from(layer: Layer) -> u32 {
        match layer {
            Layer::Group => 1,
            Layer::Allocator => 2,
            Layer::Device => 3,
        }
    }
}

// The first refusal that applies to a layout's entries, and the first entry that it applies to, from 0.
#[derive(Clone, Copy, Debug, PartialEq, Eq)]
pub enum LayoutFault {
    TooManyEntries,
    BindingOrder { entry: usize },
    ExternalTexture { entry: usize },
    TooManyDescriptors { entry: usize },
}

// A fault in numbers, the form for those who have no enum of ours: the refusal's number, the layer that refuses, and the entry that it names.
#[derive(Clone, Copy, Debug, PartialEq, Eq)]
pub struct FaultReport {
    pub number: u32,
    pub layer: Layer,
    pub entry: usize,
}

impl From<LayoutFault> for FaultReport {
    ghost from_gives = { λ fault report. report ≡ report_of fault };

    fn from(fault: LayoutFault) -> FaultReport {
        let (number, entry) = match fault {
            LayoutFault::TooManyEntries => (1, 32),
            LayoutFault::BindingOrder { entry } => (2, entry),
            LayoutFault::ExternalTexture { entry } => (3, entry),
            LayoutFault::TooManyDescriptors { entry } => (4, entry),
        };
        FaultReport {
            number,
            layer: Layer::Group,
            entry,
        }
    }
}

impl fmt::Display for LayoutFault {
    fn fmt<W: fmt::Write>(&self, f: &mut fmt::Formatter<W>) -> fmt::Result {
        f.write_str(match self {
            LayoutFault::TooManyEntries => "the layout has more than 32 entries",
            LayoutFault::BindingOrder { .. } => "its binding is not greater than the one before",
            LayoutFault::ExternalTexture { .. } => "it is an external texture",
            LayoutFault::TooManyDescriptors { .. } => {
                "the sum of descriptor counts passes 4294967295"
            }
        })
    }
}

impl Error for LayoutFault {}
