//! What is asked by multicast, and who listens.

ghost use Rattle.std.specs.Prelude.{◌≡◌};
ghost use Rattle.dns_multicast.specs.Queries.{binds_on_5353, is_joined, is_sender};

/// How this side takes part in multicast DNS (RFC 6762 5).
#[derive(Clone, Copy, Debug, PartialEq, Eq)]
pub enum MdnsQueryType {
    /// It asks once, from any port, and is answered there (RFC 6762 5.1).
    OneShot,
    /// It asks again and again, from port 5353 (RFC 6762 5.2).
    Continuous,
    /// It asks once, and hears what others are answered too.
    OneShotJoin,
    /// It only hears.
    Passive,
}

impl MdnsQueryType {
    /// Whether it sends queries. Takes no memory.
    pub fn sender(&self) -> bool
        ensures { result ≡ is_sender self.now }
    {
        match self {
            MdnsQueryType::OneShot | MdnsQueryType::Continuous | MdnsQueryType::OneShotJoin => true,
            MdnsQueryType::Passive => false,
        }
    }

    /// Whether its queries come from port 5353. Takes no memory.
    pub fn bind_on_5353(&self) -> bool
        ensures { result ≡ binds_on_5353 self.now }
    {
        match self {
            MdnsQueryType::Continuous => true,
            MdnsQueryType::OneShot | MdnsQueryType::OneShotJoin | MdnsQueryType::Passive => false,
        }
    }

    /// Whether it joins the multicast group. Takes no memory.
    pub fn join_multicast(&self) -> bool
        ensures { result ≡ is_joined self.now }
    {
        match self {
            MdnsQueryType::Continuous | MdnsQueryType::OneShotJoin | MdnsQueryType::Passive => true,
            MdnsQueryType::OneShot => false,
        }
    }
}
