//! The keys with which words of a command line begin: the table of their texts, of what stands behind them, and how often.

ghost use Rattle.std.specs.Prelude.{◌≡◌};
ghost use Rattle.dns_reasons.specs.Keys.{form_of, is_single, key_text};

/// The key of a word.
#[derive(Clone, Copy, Debug, PartialEq, Eq)]
pub enum Key {
    /// Where datagrams are taken.
    Udp,
    /// Where connections are taken.
    Tcp,
    /// How many connections may be open at once.
    Connections,
    /// For how long a connection may be silent.
    Limit,
    /// How many threads serve connections.
    Workers,
    /// The file of the zone text.
    Zone,
    /// The file of the journal.
    Journal,
    /// That updates are let in.
    Update,
    /// A network that is shut out.
    Deny,
    /// A network that is let in.
    Allow,
    /// How many bytes a datagram has at most.
    Payload,
    /// The file of the journal that is written.
    Into,
    /// The server that is sent to.
    Server,
    /// The id of the first message.
    Id,
}

/// What stands behind a key.
#[derive(Clone, Copy, Debug, PartialEq, Eq)]
pub enum Form {
    /// Nothing.
    Nothing,
    /// The path of a file, which is not empty.
    Path,
    /// An address and a port.
    Socket,
    /// An address, and how many of its first bits count.
    Network,
    /// A decimal number from the first to the second, with no zero before another digit.
    Number(u64, u64),
}

/// The text of a key, with the sign behind which its value stands.
pub fn key_text(key: Key) -> &'static str
    ensures { result.now ≡ key_text key }
{
    match key {
        Key::Udp => "--udp=",
        Key::Tcp => "--tcp=",
        Key::Connections => "--connections=",
        Key::Limit => "--limit=",
        Key::Workers => "--workers=",
        Key::Zone => "--zone=",
        Key::Journal => "--journal=",
        Key::Update => "--update",
        Key::Deny => "--deny=",
        Key::Allow => "--allow=",
        Key::Payload => "--payload=",
        Key::Into => "--into=",
        Key::Server => "--server=",
        Key::Id => "--id=",
    }
}

/// What stands behind a key.
pub fn form_of(key: Key) -> Form
    ensures { result ≡ form_of key }
{
    match key {
        Key::Udp | Key::Tcp | Key::Server => Form::Socket,
        Key::Connections => Form::Number(1, 65_536),
        Key::Limit => Form::Number(0, 140_737_488_355_327),
        Key::Workers => Form::Number(1, 64),
        Key::Zone | Key::Journal | Key::Into => Form::Path,
        Key::Update => Form::Nothing,
        Key::Deny | Key::Allow => Form::Network,
        Key::Payload => Form::Number(512, 65_507),
        Key::Id => Form::Number(0, 65_535),
    }
}

/// Whether a key stands at most once.
pub fn is_single(key: Key) -> bool
    ensures { result ≡ is_single key }
{
    match key {
        Key::Deny | Key::Allow => false,
        _ => true,
    }
}
