//! The flags and the transport of a message, as they are counted.

ghost use Rattle.std.specs.Prelude.{false, ◌≡◌, ◌<◌, ◌≤◌, ◌/◌, ◌%◌, length, ◌∷◌, [], ◌++◌, ◌-◌, replicate};
ghost use Rattle.dns_counts.specs.Counting.{grown};
ghost use Rattle.dns_counts.specs.Labels.{unit, flags_of, flags_in, protocol_units};

use crate::counting::{raise_at, raise_where};
use dns_io::Protocol;
use dns_wire::Header;

/// Counts each flag that a header has, in the order of the labels. Most requests have none but RD.
pub(crate) fn count_flags(counts: &mut [u64], header: &Header)
    requires { 6 ≤ length counts.old }
    ensures { counts.new ≡ grown counts.old (flags_of header.now) }
{
    raise_where(counts, 4, header.rd);
    if header.aa || header.ad || header.cd || header.ra || header.tc {
        count_other_flags(counts, header);
    }
}

/// Counts each flag that a header has but RD.
fn count_other_flags(counts: &mut [u64], header: &Header)
    requires { 6 ≤ length counts.old }
    ensures { counts.new ≡ grown counts.old (flags_of (record header.now { rd = false })) }
{
    raise_where(counts, 0, header.aa);
    raise_where(counts, 1, header.ad);
    raise_where(counts, 2, header.cd);
    raise_where(counts, 3, header.ra);
    raise_where(counts, 5, header.tc);
}

/// Whether the bit of this weight is set.
fn has_bit(word: u16, weight: u16) -> bool
    requires { 0 < weight }
    ensures { unit result ≡ word / weight % 2 }
{
    word / weight % 2 == 1
}

/// Counts each flag that the third and fourth byte of a message have, read as one number, in the order of the labels. Most replies
/// have none but AA and RD.
pub(crate) fn count_flags_in(counts: &mut [u64], word: u16)
    requires { 6 ≤ length counts.old }
    ensures { counts.new ≡ grown counts.old (flags_in word) }
{
    raise_where(counts, 0, has_bit(word, 0x0400));
    raise_where(counts, 4, has_bit(word, 0x0100));
    if has_bit(word, 0x0020)
        || has_bit(word, 0x0010)
        || has_bit(word, 0x0080)
        || has_bit(word, 0x0200)
    {
        count_other_flags_in(counts, word);
    }
}

/// Counts each flag that the word has but AA and RD.
fn count_other_flags_in(counts: &mut [u64], word: u16)
    requires { 6 ≤ length counts.old }
    ensures { counts.new ≡ grown counts.old (0 ∷ word / 0x0020 % 2 ∷ word / 0x0010 % 2 ∷ word / 0x0080 % 2 ∷ 0 ∷ word / 0x0200 % 2 ∷ []) }
{
    raise_where(counts, 1, has_bit(word, 0x0020));
    raise_where(counts, 2, has_bit(word, 0x0010));
    raise_where(counts, 3, has_bit(word, 0x0080));
    raise_where(counts, 5, has_bit(word, 0x0200));
}

/// The place of the label of a transport.
fn place_of_protocol(protocol: Protocol) -> usize
    ensures within { result < 6 }
    ensures place { protocol_units protocol ≡ replicate result 0 ++ 1 ∷ replicate (5 - result) 0 }
{
    match protocol {
        Protocol::Udp => 0,
        Protocol::Tcp => 1,
        Protocol::Tls => 2,
        Protocol::Https => 3,
        Protocol::Quic => 4,
        Protocol::H3 => 5,
    }
}

/// Counts a message of a transport.
pub(crate) fn count_protocol(counts: &mut [u64], protocol: Protocol)
    requires { 6 ≤ length counts.old }
    ensures { counts.new ≡ grown counts.old (protocol_units protocol) }
{
    raise_at(counts, place_of_protocol(protocol), 1);
}
