//! Big-endian numbers and parts of messages (RFC 1035 2.3.2).

ghost use Rattle.std.specs.Prelude.{◌≡◌, ◌+◌, ◌≤◌, length};
ghost use Rattle.dns_wire.specs.Standing.{word_at, long_at, between};

/// The number of two bytes at a place.
pub(crate) fn word(m: &[u8], i: usize) -> u16
    requires { i + 2 ≤ length m.now }
    ensures { result ≡ word_at m.now i }
{
    u16::from_be_bytes([m[i], m[i + 1]])
}

/// The number of four bytes at a place.
pub(crate) fn long(m: &[u8], i: usize) -> u32
    requires { i + 4 ≤ length m.now }
    ensures { result ≡ long_at m.now i }
{
    u32::from_be_bytes([m[i], m[i + 1], m[i + 2], m[i + 3]])
}

/// The bytes from one place to another.
pub(crate) fn part(m: &[u8], at: usize, end: usize) -> &[u8]
    requires order { at ≤ end }
    requires within { end ≤ length m.now }
    ensures { result.now ≡ between m.now at end }
{
    &m[at..end]
}
