//! The classes of records and questions (RFC 1035 3.2.4, 3.2.5).

/// The Internet (RFC 1035 3.2.4).
pub const IN: u16 = 1;

/// No class, in an update: a name or records must not exist, or are deleted (RFC 2136 1.3).
pub const NONE: u16 = 254;

/// Any class (RFC 1035 3.2.5); in an update: a name or records must exist, or are deleted (RFC 2136 2.4, 2.5).
pub const ANY: u16 = 255;
