//! The address of an AAAA record.

ghost use Rattle.std.specs.Prelude.{◌≡◌, ◌<◌, ◌^◌};

use std::marker::Model;

/// An IPv6 address (RFC 3596 2.2), which contracts see as its number of 128 bits, the first byte highest. It is held in two
/// halves, so that data which has one wants no wider place than other data.
#[derive(Debug, Drop)]
pub struct Ipv6Address {
    /// The first eight bytes.
    high: u64,
    /// The last eight bytes.
    low: u64,
}

impl Model for Ipv6Address {
    ghost use Rattle.std.specs.Prelude.{ℕ, ◌+◌, ◌*◌, ◌^◌};

    ghost Value = { ℕ };

    ghost view = { λ a. a.high * 2 ^ 64 + a.low };
}

impl Ipv6Address {
    /// The address of a number.
    pub fn new(number: u128) -> Ipv6Address
        ensures { result ≡ number }
    {
        Ipv6Address {
            high: (number / 18446744073709551616) as u64,
            low: (number % 18446744073709551616) as u64,
        }
    }

    /// The number of the address.
    pub fn number(&self) -> u128
        ensures is { result ≡ self.now }
        ensures bound { self.now < 2 ^ 128 }
    {
        self.high as u128 * 18446744073709551616 + self.low as u128
    }

    /// The same address.
    pub fn copy(&self) -> Ipv6Address
        ensures same { result ≡ self.now }
        ensures bound { self.now < 2 ^ 128 }
    {
        Ipv6Address::new(self.number())
    }
}

impl PartialEq for Ipv6Address {
    ghost use Rattle.std.specs.Prelude.{nat_eq};
    ghost use Rattle.std.specs.Cmp.{nat_eq_equiv, partial_equiv_from_equiv};

    ghost eq = { nat_eq };

    ghost laws = { partial_equiv_from_equiv nat_eq_equiv };

    fn eq(&self, other: &Ipv6Address) -> bool {
        self.number() == other.number()
    }
}

impl Eq for Ipv6Address {
    ghost use Rattle.std.specs.Cmp.{nat_eq_equiv};

    ghost laws = { nat_eq_equiv };
}
