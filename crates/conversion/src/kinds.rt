// The kinds of descriptor, and Vulkan's numbers for them.
ghost use Rattle.std.specs.Prelude.{◌≡◌, ◌<◌};
ghost use Rattle.conversion.specs.Kinds.{place, kind_at, type_number, kind_of_type, Typed, type_of};
ghost use Rattle.conversion.specs.Layouts.{is_external};

use std::error::Error;
use std::fmt;

// The kinds that a descriptor can have, in key order.
#[derive(Clone, Copy, Debug, PartialEq, Eq)]
pub enum Kind {
    Sampler,
    SampledImage,
    StorageImage,
    UniformBuffer,
    UniformBufferDynamic,
    StorageBuffer,
    StorageBufferDynamic,
    AccelerationStructure,
}

// What a layout entry asks for. No descriptor stands for an external texture.
#[derive(Clone, Copy, Debug, PartialEq, Eq)]
pub enum EntryKind {
    Descriptor(Kind),
    ExternalTexture,
}

impl EntryKind {
    pub(crate) fn is_external(self) -> bool
        ensures { result ≡ is_external self }
    {
        self == EntryKind::ExternalTexture
    }
}

// In key order: a constant table, by the project's rule, as those of numbers.
pub const KINDS: [Kind; 8] = [
    Kind::Sampler,
    Kind::SampledImage,
    Kind::StorageImage,
    Kind::UniformBuffer,
    Kind::UniformBufferDynamic,
    Kind::StorageBuffer,
    Kind::StorageBufferDynamic,
    Kind::AccelerationStructure,
];

// VkDescriptorType, by place in key order.
const TYPE_NUMBERS: [u32; 8] = [0, 2, 3, 6, 8, 7, 9, 1000150000];

impl Kind {
    // The place in key order, from 0; a method, so that the place is named where it is used.
    pub fn place(self) -> usize
        ensures is { result ≡ place self }
        ensures bound { result < 8 }
    {
        self as usize
    }

    // The kind at a place in key order.
    pub fn at_place(place: usize) -> Option<Kind>
        ensures { result ≡ kind_at «place» }
    {
        KINDS.get(place).copied()
    }

    // apart from `try_from`, since of the chain within it the proof did not close
    fn of_type(number: u32) -> Option<Kind>
        ensures { result ≡ kind_of_type number }
    {
        KINDS
            .iter()
            .copied()
            .find(|kind| u32::from(*kind) == number)
    }
}

// The type number.
impl From<Kind> for u32 {
    ghost from_gives = { λ kind number. number ≡ type_number kind };

    fn from(kind: Kind) -> u32 {
        TYPE_NUMBERS[kind.place()]
    }
}

// A type number that none of the eight kinds has.
#[derive(Clone, Copy, Debug, PartialEq, Eq)]
pub struct UnknownType(pub u32);

impl fmt::Display for UnknownType {
    fn fmt<W: fmt::Write>(&self, f: &mut fmt::Formatter<W>) -> fmt::Result {
        write!(f, "no kind has type {}", self.0)
    }
}

impl Error for UnknownType {}

// The kind with a type number.
impl TryFrom<u32> for Kind {
    type Error = UnknownType;

    ghost try_from_gives = { Typed };

    fn try_from(number: u32) -> Result<Kind, UnknownType> {
        Kind::of_type(number).ok_or(UnknownType(number))
    }
}

// The type number of what an entry asks for; an external texture has none.
// A function, as in wgpu-hal, since its conversions keep their names here and in results and stages.
pub fn map_binding_type(kind: EntryKind) -> Option<u32>
    ensures { result ≡ type_of kind }
{
    match kind {
        EntryKind::Descriptor(kind) => Some(u32::from(kind)),
        EntryKind::ExternalTexture => None,
    }
}
