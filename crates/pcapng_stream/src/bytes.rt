// Parts of bytes.
ghost use Rattle.std.specs.Prelude.{◌≡◌, ◌+◌, ◌≤◌, take, drop};
ghost use Rattle.pcapng_stream.specs.Numbers.{padded};

// The bytes from a place on, of which there may be none.
pub(crate) fn behind(bytes: &[u8], place: usize) -> &[u8]
    ensures { result.now ≡ drop place bytes.now }
{
    if place < bytes.len() {
        &bytes[place..]
    } else {
        &[]
    }
}

// The first bytes, as many as there are of so many.
pub(crate) fn front(bytes: &[u8], most: usize) -> &[u8]
    ensures { result.now ≡ take most bytes.now }
{
    if most < bytes.len() {
        &bytes[..most]
    } else {
        bytes
    }
}

// So many bytes with those that fill them up to a multiple of four.
pub(crate) fn padded(count: usize) -> usize
    requires { count ≤ 262144 }
    ensures { result ≡ padded count }
{
    (count + 3) / 4 * 4
}
