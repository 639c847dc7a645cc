//! Big-endian numbers in data (RFC 1035 2.3.2).

ghost use Rattle.std.specs.Prelude.{◌≡◌, ◌+◌, ◌≤◌, length};
ghost use Rattle.dns_wire.specs.Standing.{word_at, long_at, quad_at, wide_at};

/// The number of two bytes at a place.
pub(crate) fn word(bytes: &[u8], place: usize) -> u16
    requires { place + 2 ≤ length bytes.now }
    ensures { result ≡ word_at bytes.now place }
{
    u16::from_be_bytes([bytes[place], bytes[place + 1]])
}

/// The number of four bytes at a place.
pub(crate) fn long(bytes: &[u8], place: usize) -> u32
    requires { place + 4 ≤ length bytes.now }
    ensures { result ≡ long_at bytes.now place }
{
    u32::from_be_bytes([
        bytes[place],
        bytes[place + 1],
        bytes[place + 2],
        bytes[place + 3],
    ])
}

/// The number of eight bytes at a place.
fn quad(bytes: &[u8], place: usize) -> u64
    requires { place + 8 ≤ length bytes.now }
    ensures { result ≡ quad_at bytes.now place }
{
    u64::from_be_bytes([
        bytes[place],
        bytes[place + 1],
        bytes[place + 2],
        bytes[place + 3],
        bytes[place + 4],
        bytes[place + 5],
        bytes[place + 6],
        bytes[place + 7],
    ])
}

/// The number of sixteen bytes at a place.
pub(crate) fn wide(bytes: &[u8], place: usize) -> u128
    requires { place + 16 ≤ length bytes.now }
    ensures { result ≡ wide_at bytes.now place }
{
    u128::from(quad(bytes, place)) * 18446744073709551616 + u128::from(quad(bytes, place + 8))
}
