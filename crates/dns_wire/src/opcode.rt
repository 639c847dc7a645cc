//! The kinds of query (RFC 1035 4.1.1).

/// A standard query (RFC 1035 4.1.1).
pub const QUERY: u8 = 0;

/// The notice that a zone has changed (RFC 1996 3.1).
pub const NOTIFY: u8 = 4;

/// A change of a zone (RFC 2136 1.3).
pub const UPDATE: u8 = 5;
