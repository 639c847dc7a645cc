//! The types of resource records (RFC 1035 3.2.2), and the types that only questions have (RFC 1035 3.2.3).

/// An IPv4 address (RFC 1035 3.4.1).
pub const A: u16 = 1;

/// A host that serves the zone which begins here (RFC 1035 3.3.11).
pub const NS: u16 = 2;

/// The name that this one is an alias of (RFC 1035 3.3.1).
pub const CNAME: u16 = 5;

/// The start of a zone (RFC 1035 3.3.13).
pub const SOA: u16 = 6;

/// A name elsewhere (RFC 1035 3.3.12).
pub const PTR: u16 = 12;

/// A host that takes mail (RFC 1035 3.3.9).
pub const MX: u16 = 15;

/// Byte strings (RFC 1035 3.3.14).
pub const TXT: u16 = 16;

/// An IPv6 address (RFC 3596 2.1).
pub const AAAA: u16 = 28;

/// A host that gives a service (RFC 2782).
pub const SRV: u16 = 33;

/// The pseudo-record of EDNS (RFC 6891 6.1.1).
pub const OPT: u16 = 41;

/// The digest of a key of the zone that begins here (RFC 4034 5).
pub const DS: u16 = 43;

/// In a question: the changes of a zone since a serial (RFC 1995 3).
pub const IXFR: u16 = 251;

/// In a question: a whole zone (RFC 5936 2).
pub const AXFR: u16 = 252;

/// In a question: records of all types (RFC 1035 3.2.3).
pub const ANY: u16 = 255;
