//! What is wrong with a word of a command line, or what is missing behind it, in words for a person.

use thiserror::Error;

/// What is wrong with a word, or missing behind it.
#[derive(Clone, Copy, Debug, PartialEq, Eq, Error)]
pub enum Why {
    /// There is no word at all, or the first is no command of the server.
    #[error("a command was expected: serve, events or load, or one of zone, list, compact, feed and follow")]
    Server,
    /// The same of the auditor.
    #[error("a command was expected: zone, list or compact")]
    Auditor,
    /// The same of the follower.
    #[error("a command was expected: feed or follow")]
    Follower,
    /// The word asks for help, or for the version, and others stand beside it.
    #[error("this word stands alone, with no other")]
    Lone,
    /// A word is no text, so that none of them could be read.
    #[error("one of the words is not UTF-8")]
    Text,
    /// No word of the command begins so.
    #[error("this word is not known here")]
    Unknown,
    /// The word is a key without the sign behind which its value stands.
    #[error("its value has to stand behind it in the same word, with = between them")]
    Apart,
    /// The word stood before.
    #[error("this may stand once alone")]
    Again,
    /// Nothing may stand behind the key.
    #[error("nothing may stand behind this word")]
    Alone,
    /// The path is empty.
    #[error("a path was expected behind =")]
    Path,
    /// There is no port.
    #[error("an address and a port were expected, as 127.0.0.1:53 or [::1]:53")]
    Socket,
    /// The address of a port is none.
    #[error("this is no address: 127.0.0.1:53 or [::1]:53 would be one with its port")]
    Host,
    /// The port is no number, or too great.
    #[error("a port is a number from 0 to 65535")]
    Port,
    /// There is no number of bits.
    #[error("a network was expected, as 192.0.2.0/24 or 2001:db8::/32")]
    Network,
    /// The address of a network is none.
    #[error("this is no address: 192.0.2.0/24 or 2001:db8::/32 would be a network")]
    Ip,
    /// The number of bits is none, or too great for the address.
    #[error("behind / stands how many bits count, a number from 0 to {0}")]
    Bits(u64),
    /// The number is none, or out of its range.
    #[error("a number from {0} to {1} was expected")]
    Range(u64, u64),
    /// The word is no domain name.
    #[error("this is no domain name: example.com. is one (labels have 1 to 63 bytes, the name at most 255)")]
    Name,
    /// The zone's name is missing.
    #[error("ORIGIN is missing behind it: the name at the top of the zone")]
    NoOrigin,
    /// The number of rows is missing.
    #[error("LENGTH is missing behind ORIGIN: how many rows make the zone")]
    NoLength,
    /// The number of the first row is missing.
    #[error("FROM is missing behind ORIGIN: the number of the first row")]
    NoFrom,
    /// What is drawn from is missing.
    #[error("SEED is missing behind it: a number")]
    NoSeed,
    /// How many messages are drawn is missing.
    #[error("COUNT is missing behind SEED: how many messages")]
    NoCount,
    /// There is no place to listen at.
    #[error("--udp=IP:PORT or --tcp=IP:PORT is missing: where to listen")]
    NoPort,
    /// The server to be asked is missing.
    #[error("--server=IP:PORT is missing: the server that is sent to")]
    NoServer,
    /// The id of the first message is missing.
    #[error("--id=N is missing: the id of the first message")]
    NoId,
    /// The words stand in another order than they may.
    #[error("the words stand in another order: --server= before --id=, and --journal= before --into=")]
    Order,
}
