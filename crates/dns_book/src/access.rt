//! Which sources are let in, and how large a datagram may go out.

ghost use Rattle.std.specs.Prelude.{◌≡◌, ◌/◌, ◌≤◌, ◌<◌, ◌^◌, ◌++◌, take, OnOk, OnErr, []};
ghost use Rattle.std.specs.Str.{bytes_eq};
ghost use Rattle.dns_book.specs.Bits.{bits_of, front_of};
ghost use Rattle.dns_book.specs.Access.{net_of, lies_in, lies_in_any, has_own, lets_in, is_one_family};

use dns_io::{Ip, OutOfMemory};
use std::alloc::Global;
use std::marker::Model;

/// A network: the addresses of one family whose first bits are these (RFC 4632 3.1, RFC 4291 2.3).
#[derive(Clone, Copy, Debug, PartialEq, Eq)]
pub struct IpNet {
    ip: Ip,
    prefix: u8,
}

impl IpNet {
    /// The network of the first `prefix` bits of an address, whose other bits are cleared. None where the address has
    /// fewer bits: an IPv4 address has 32, and an IPv6 address 128. Takes no memory.
    pub fn new(ip: Ip, prefix: u8) -> Option<IpNet>
        ensures { result ≡ net_of ip prefix }
    {
        match ip {
            Ip::V4(number) => {
                if prefix > 32 {
                    return None;
                }
                let front = front_of(32, prefix, u128::from(number));
                let ip = Ip::V4(front as u32);
                Some(IpNet { ip, prefix })
            }
            Ip::V6(number) => {
                if prefix > 128 {
                    return None;
                }
                let ip = Ip::V6(front_of(128, prefix, number));
                Some(IpNet { ip, prefix })
            }
        }
    }

    /// Whether an address lies in the network.
    fn contains(self, ip: Ip) -> bool
        ensures { result ≡ lies_in ip self }
    {
        match (ip, self.ip) {
            (Ip::V4(a), Ip::V4(b)) => { share_front(32, self.prefix, u128::from(a), u128::from(b)) }
            (Ip::V6(a), Ip::V6(b)) => share_front(128, self.prefix, a, b),
            _ => false,
        }
    }

    /// Whether an address is of the network's family.
    fn is_of_family(self, ip: Ip) -> bool
        ensures { result ≡ is_one_family ip self.ip }
    {
        match (ip, self.ip) {
            (Ip::V4(_), Ip::V4(_)) => true,
            (Ip::V6(_), Ip::V6(_)) => true,
            _ => false,
        }
    }
}

/// Whether two numbers of `width` bits agree in their first `prefix` bits.
#[tactic(auto, using(crate::proofs::FirstBits::front_test))]
fn share_front(width: u32, prefix: u8, a: u128, b: u128) -> bool
    requires width { width ≤ 128 }
    requires a { a < 2 ^ width }
    requires b { b < 2 ^ width }
    ensures { result ≡ bytes_eq (take prefix (bits_of width a)) (take prefix (bits_of width b)) }
{
    let low = width.saturating_sub(u32::from(prefix));
    without_low_bits(a, low) == without_low_bits(b, low)
}

/// What is left of a number without its low bits.
fn without_low_bits(number: u128, low: u32) -> u128
    requires { low ≤ 128 }
    ensures { result ≡ number / 2 ^ low }
{
    match number.checked_shr(low) {
        Some(high) => high,
        None => 0,
    }
}

/// A number of `width` bits with all but the first `prefix` of them cleared.
fn front_of(width: u32, prefix: u8, number: u128) -> u128
    ensures { result ≡ front_of width prefix number }
{
    let low = width.saturating_sub(u32::from(prefix));
    match 2u128.checked_pow(low) {
        Some(unit) => number / unit * unit,
        None => 0,
    }
}

/// The greatest datagram that IPv4 carries, in bytes: 65,535, less 20 of its own header (RFC 791 3.1) and 8 of UDP's (RFC 768).
pub const MAX_PAYLOAD: u16 = 65_507;

/// Who is let in, and how large a datagram may go out: the networks that are let in, those that are shut out, and how many bytes a
/// datagram has at most that is sent, 512 to 65,507, whatever the OPT of its request offers (RFC 6891 6.2.5).
#[derive(Debug, Drop)]
pub struct AccessControl {
    allowed: Vec<IpNet>,
    denied: Vec<IpNet>,
    payload: u16,
}

impl Model for AccessControl {
    ghost use Rattle.dns_book.specs.Access.{Access, IsPayload};

    ghost Value = { Access };

    ghost view = { λ a. record { allowed = a.allowed.items; denied = a.denied.items; payload = a.payload } };

    ghost invariant = { λ a. IsPayload a.payload };
}

impl AccessControl {
    /// No networks: every source is let in. A datagram has at most the 65,507 bytes that IPv4 carries. Takes no memory.
    pub fn new(alloc: Global) -> AccessControl
        ensures { result ≡ record { allowed = []; denied = []; payload = 65507 } }
    {
        AccessControl {
            allowed: Vec::new(alloc),
            denied: Vec::new(alloc),
            payload: MAX_PAYLOAD,
        }
    }

    /// These networks. A datagram has at most the 65,507 bytes that IPv4 carries. Takes no memory.
    pub fn from_networks(denied: Vec<IpNet>, allowed: Vec<IpNet>) -> AccessControl
        ensures { result ≡ record { allowed = allowed.items; denied = denied.items; payload = 65507 } }
    {
        AccessControl {
            allowed,
            denied,
            payload: MAX_PAYLOAD,
        }
    }

    /// The same networks; a datagram has at most so many bytes. Takes no memory.
    pub fn with_payload(self, most: u16) -> AccessControl
        requires least { 512 ≤ most }
        requires most { most ≤ 65507 }
        ensures { result ≡ record self { payload = most } }
    {
        let AccessControl {
            allowed,
            denied,
            payload: _,
        } = self;
        AccessControl {
            allowed,
            denied,
            payload: most,
        }
    }

    /// How many bytes a datagram has at most that is sent.
    pub(crate) fn payload(&self) -> u16
        ensures is { result ≡ self.now.payload }
        ensures least { 512 ≤ result }
    {
        self.payload
    }

    /// Adds networks that are let in. Nothing has changed where memory ran out.
    pub fn insert_allow(&mut self, nets: &Vec<IpNet>) -> Result<(), OutOfMemory>
        ensures ok { OnOk result (self.new ≡ record self.old { allowed = self.old.allowed ++ nets.now.items }) }
        ensures err { OnErr result (self.new ≡ self.old) }
    {
        self.allowed.extend_from_slice(nets.as_slice())?;
        Ok(())
    }

    /// Adds networks that are shut out. Nothing has changed where memory ran out.
    pub fn insert_deny(&mut self, nets: &Vec<IpNet>) -> Result<(), OutOfMemory>
        ensures ok { OnOk result (self.new ≡ record self.old { denied = self.old.denied ++ nets.now.items }) }
        ensures err { OnErr result (self.new ≡ self.old) }
    {
        self.denied.extend_from_slice(nets.as_slice())?;
        Ok(())
    }

    /// Whether a source with this address is let in, by the networks of its own family: one in an allowed network is;
    /// else one in a denied network is not; else it is, unless there are allowed networks and no denied ones. Takes no
    /// memory.
    #[tactic(auto, unfolding(crate::specs::Access::lets_in))]
    pub fn allow(&self, ip: &Ip) -> bool
        ensures { result ≡ lets_in self.now ip.now }
    {
        if lies_in_any(self.allowed.as_slice(), *ip) {
            return true;
        }
        if lies_in_any(self.denied.as_slice(), *ip) {
            return false;
        }
        !has_own(self.allowed.as_slice(), *ip) || has_own(self.denied.as_slice(), *ip)
    }
}

fn lies_in_any(nets: &[IpNet], ip: Ip) -> bool
    ensures { result ≡ lies_in_any ip nets.now }
{
    nets.iter().any(|net| net.contains(ip))
}

fn has_own(nets: &[IpNet], ip: Ip) -> bool
    ensures { result ≡ has_own ip nets.now }
{
    nets.iter().any(|net| net.is_of_family(ip))
}
