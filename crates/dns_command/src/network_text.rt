//! Networks in text.

ghost use Rattle.std.specs.Prelude.{◌≡◌};
ghost use Rattle.dns_command.specs.NetworkText.{network_of};

use dns_book::IpNet;
use dns_words::{decimal_of, first_place, ip_of};

/// The network of a text: an address in 8 (IPv4) or 32 (IPv6) hex digits, `/`, and how many of its first bits count, as
/// a decimal number with no zero before another digit, at most 32 or 128 (RFC 4632 3.1). None for any other text.
#[tactic(auto, unfolding(crate::specs::NetworkText::network_of))]
pub fn network_of(text: &[u8]) -> Option<IpNet>
    ensures { result ≡ network_of text.now }
{
    let place = first_place(b'/', text)?;
    let (ip, _) = text.split_at(place);
    let (_, prefix) = text.split_at(place + 1);
    let ip = ip_of(ip)?;
    let prefix = decimal_of(256, prefix)?;
    IpNet::new(ip, prefix as u8)
}
