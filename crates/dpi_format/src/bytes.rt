//! Parts of a format.

ghost use Rattle.std.specs.Prelude.{◌≡◌, drop};

/// The bytes from a place on, none past the end.
pub(crate) fn bytes_from(bytes: &[u8], place: usize) -> &[u8]
    ensures { result.now ≡ drop place bytes.now }
{
    if place < bytes.len() {
        &bytes[place..]
    } else {
        &bytes[bytes.len()..]
    }
}
