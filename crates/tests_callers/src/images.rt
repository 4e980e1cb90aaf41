//! What a caller of `envimage` states and proves.

ghost use Rattle.std.specs.Prelude.{◌≡◌};
ghost use Rattle.tests_callers.specs.Order.{order_of};

use envimage::{ByteOrder, load};

/// The byte order in which a single image is sound, the usual one first.
pub fn order_of(image: &[u8]) -> Option<ByteOrder>
    ensures { result ≡ order_of image.now }
{
    if load(image, None, ByteOrder::Little).is_ok() {
        return Some(ByteOrder::Little);
    }
    if load(image, None, ByteOrder::Big).is_ok() {
        return Some(ByteOrder::Big);
    }
    None
}
