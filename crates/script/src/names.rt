// The names that a script has for kinds and stages.
ghost use Rattle.std.specs.Prelude.{◌≡◌, position};
ghost use Rattle.std.specs.Str.{bytes_eq};
ghost use Rattle.script.specs.Names.{kind_named, stage_named};

use conversion::kinds::{EntryKind, Kind};

// In key order, beside `KINDS` and in step with it: places and names are looked up both ways.
pub const KIND_NAMES: [&str; 8] = [
    "sampler",
    "sampled-image",
    "storage-image",
    "uniform-buffer",
    "uniform-buffer-dynamic",
    "storage-buffer",
    "storage-buffer-dynamic",
    "acceleration-structure",
];

// By stage bit; constant tables both, by the project's rule.
pub const STAGE_NAMES: [&str; 9] = [
    "vertex",
    "fragment",
    "compute",
    "task",
    "mesh",
    "ray-generation",
    "miss",
    "any-hit",
    "closest-hit",
];

// `==` has a slice on both sides, and so takes no byte string.
pub(crate) fn spells(word: &[u8], name: &[u8]) -> bool
    ensures { result ≡ bytes_eq word.now name.now }
{
    word == name
}

// The place of a word among names.
fn place_in(names: &[&str], word: &[u8]) -> Option<usize>
    ensures { result ≡ position (λ n. bytes_eq word.now n.now) names.now }
{
    names.iter().position(|name| spells(word, name.as_bytes()))
}

// A function, since no `TryFrom` between two types of other crates can stand here.
pub fn kind_named(word: &[u8]) -> Option<EntryKind>
    ensures { result ≡ kind_named word.now }
{
    if spells(word, b"external-texture") {
        return Some(EntryKind::ExternalTexture);
    }
    place_in(&KIND_NAMES, word)
        .and_then(Kind::at_place)
        .map(EntryKind::Descriptor)
}

// The bit of the stage; a function as `kind_named` is.
pub fn stage_named(word: &[u8]) -> Option<u32>
    ensures { result ≡ stage_named word.now }
{
    place_in(&STAGE_NAMES, word).map(|place| 1 << place)
}
