// What a device is told of pools and of descriptors.
ghost use Rattle.std.specs.Prelude.{◌≡◌};
ghost use Rattle.std.specs.Option.{option_map};
ghost use Rattle.device.specs.Stored.{said};
ghost use Rattle.device.specs.Writes.{lists_in, records_of, length_of, content_at};

use conversion::kinds::Kind;

// How many descriptors of a type a pool is made with. The type stays a number, as in a binding: it may be one that no kind has.
#[derive(Clone, Copy, Debug, PartialEq, Eq)]
pub struct PoolSize {
    pub descriptor_type: u32,
    pub count: u32,
}

// A sampler, or an image view with its layout; what there is none of is 0.
#[derive(Clone, Copy, Debug, PartialEq, Eq)]
pub struct ImageRecord {
    pub sampler: u64,
    pub view: u64,
    pub layout: u32,
}

#[derive(Clone, Copy, Debug, PartialEq, Eq)]
pub struct BufferRecord {
    pub buffer: u64,
    pub offset: u64,
    pub range: u64,
}

#[derive(Clone, Copy, Debug, PartialEq, Eq)]
pub struct AccelerationRecord {
    pub handle: u64,
}

// What a descriptor says.
#[derive(Clone, Copy, Debug, PartialEq, Eq)]
pub enum Content {
    Image(ImageRecord),
    Buffer(BufferRecord),
    Acceleration(AccelerationRecord),
}

#[derive(Clone, Copy, Debug, PartialEq, Eq)]
pub struct Descriptor {
    pub kind: Kind,
    pub content: Content,
}

// Descriptors for one binding of a set. Their records start at `start` in the list of their kind.
// The type stays a number, as in a binding: it may be one that no kind has.
#[derive(Clone, Copy, Debug, PartialEq, Eq)]
pub struct Write {
    pub set: u64,
    pub binding: u32,
    pub element: u32,
    pub descriptor_type: u32,
    pub count: u32,
    pub start: usize,
}

// The lists that the writes of a call take their records from.
#[derive(Clone, Copy, Debug, PartialEq, Eq)]
pub struct Records<'a> {
    pub images: &'a [ImageRecord],
    pub buffers: &'a [BufferRecord],
    pub accelerations: &'a [AccelerationRecord],
}

// One of the lists that hold records.
#[derive(Clone, Copy, Debug, PartialEq, Eq)]
pub enum RecordList {
    Images,
    Buffers,
    Accelerations,
}

// The list that holds the records of a kind.
impl From<Kind> for RecordList {
    ghost from_gives = { λ kind list. list ≡ records_of kind };

    fn from(kind: Kind) -> RecordList {
        match kind {
            Kind::Sampler | Kind::SampledImage | Kind::StorageImage => RecordList::Images,
            Kind::UniformBuffer
            | Kind::UniformBufferDynamic
            | Kind::StorageBuffer
            | Kind::StorageBufferDynamic => { RecordList::Buffers }
            Kind::AccelerationStructure => RecordList::Accelerations,
        }
    }
}

impl Records<'_> {
    pub(crate) fn length_of(self, list: RecordList) -> usize
        ensures { result ≡ length_of (lists_in self.entry) list }
    {
        match list {
            RecordList::Images => self.images.len(),
            RecordList::Buffers => self.buffers.len(),
            RecordList::Accelerations => self.accelerations.len(),
        }
    }

    pub(crate) fn content_at(self, list: RecordList, i: usize) -> Option<Content>
        ensures { option_map said result ≡ content_at (lists_in self.entry) list i }
    {
        match list {
            RecordList::Images => self.images.get(i).copied().map(Content::Image),
            RecordList::Buffers => self.buffers.get(i).copied().map(Content::Buffer),
            RecordList::Accelerations => {
                self.accelerations
                    .get(i)
                    .copied()
                    .map(Content::Acceleration)
            }
        }
    }
}
