//! The numbers that a seed draws.

ghost use Rattle.std.specs.Prelude.{◌≡◌, ◌<◌};
ghost use Rattle.dns_generator.specs.Draws.{next_state, drawn, kind_of, host_number, rest_of};

/// The multiplier of the linear congruence modulo 2^64.
const MULTIPLIER: u128 = 6_364_136_223_846_793_005;

/// Its increment.
const INCREMENT: u128 = 1_442_695_040_888_963_407;

/// The state behind this one.
pub(crate) fn next_state(state: u64) -> u64
    ensures { result ≡ next_state state }
{
    let wide = u128::from(state) * MULTIPLIER + INCREMENT;
    (wide % (1 << 64)) as u64
}

/// What a drawn number asks for.
#[derive(Clone, Copy, Debug, PartialEq, Eq)]
pub(crate) enum Kind {
    /// A query by datagram.
    Query,
    /// A query over a connection, in two pieces.
    QueryInPieces,
    /// An update that adds an address.
    Addition,
    /// An update that deletes addresses.
    Deletion,
}

/// A number that was drawn.
#[derive(Clone, Copy)]
pub(crate) struct Draw(u32);

impl Draw {
    /// The number that a state draws: its upper half.
    pub(crate) fn of(state: u64) -> Draw
        ensures { result.0 ≡ drawn state }
    {
        Draw((state / (1 << 32)) as u32)
    }

    /// What it asks for.
    pub(crate) fn kind(self) -> Kind
        ensures { result ≡ kind_of self.0 }
    {
        match self.0 % 8 {
            0..=3 => Kind::Query,
            4..=5 => Kind::QueryInPieces,
            6 => Kind::Addition,
            _ => Kind::Deletion,
        }
    }

    /// The number of the host, below 64.
    pub(crate) fn host_number(self) -> u32
        ensures is { result ≡ host_number self.0 }
        ensures below { result < 64 }
    {
        self.0 / 8 % 64
    }

    /// The rest, below 2^23.
    pub(crate) fn rest(self) -> u32
        ensures { result ≡ rest_of self.0 }
    {
        self.0 / 512
    }
}
