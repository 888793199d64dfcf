// Which layouts and pools are invalid to ask for.
ghost use Rattle.std.specs.Prelude.{◌≡◌};
ghost use Rattle.device.specs.Calls.{unknown_type, invalid_layout, has_type, invalid_size, invalid_pool};

use crate::records::PoolSize;
use conversion::bindings::DeviceBinding;
use conversion::kinds::Kind;

fn is_unknown_type(number: u32) -> bool
    ensures { result ≡ unknown_type number }
{
    Kind::try_from(number).is_err()
}

// Whether a binding has a type that is none of the eight.
pub fn is_invalid_layout(bindings: &[DeviceBinding]) -> bool
    ensures { result ≡ invalid_layout bindings.now }
{
    bindings.iter().any(|b| is_unknown_type(b.descriptor_type))
}

fn has_type(sizes: &[PoolSize], number: u32) -> bool
    ensures { result ≡ has_type number sizes.now }
{
    sizes.iter().any(|size| size.descriptor_type == number)
}

fn is_invalid_size(size: &PoolSize, before: &[PoolSize]) -> bool
    ensures { result ≡ invalid_size size.now before.now }
{
    size.count == 0
        || is_unknown_type(size.descriptor_type)
        || has_type(before, size.descriptor_type)
}

// Whether a pool has no sets, a size of 0, a type that is none of the eight, or one type twice.
pub fn is_invalid_pool(most: u32, sizes: &[PoolSize]) -> bool
    ensures { result ≡ invalid_pool most sizes.now }
{
    // a loop, since for `any` over sizes and places no short answer closes the goal
    for (i, size) in sizes.iter().enumerate() {
        if is_invalid_size(size, &sizes[..i]) {
            return true;
        }
    }
    most == 0
}
