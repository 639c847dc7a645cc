//! Response codes (RFC 1035 4.1.1, RFC 2136 2.2, RFC 6891 9), whose eight higher bits stand in the OPT.

/// No error (RFC 1035 4.1.1).
pub const NO_ERROR: u16 = 0;

/// The message cannot be interpreted (RFC 1035 4.1.1).
pub const FORM_ERR: u16 = 1;

/// The server failed (RFC 1035 4.1.1).
pub const SERV_FAIL: u16 = 2;

/// The name does not exist (RFC 1035 4.1.1).
pub const NX_DOMAIN: u16 = 3;

/// This kind of query is not implemented (RFC 1035 4.1.1).
pub const NOT_IMP: u16 = 4;

/// The server refuses to answer (RFC 1035 4.1.1).
pub const REFUSED: u16 = 5;

/// A name exists that must not exist (RFC 2136 2.2).
pub const YX_DOMAIN: u16 = 6;

/// A set of records exists that must not exist (RFC 2136 2.2).
pub const YX_RR_SET: u16 = 7;

/// A set of records does not exist that must exist (RFC 2136 2.2).
pub const NX_RR_SET: u16 = 8;

/// The server has no authority for the zone (RFC 2136 2.2).
pub const NOT_AUTH: u16 = 9;

/// A name is not in the zone (RFC 2136 2.2).
pub const NOT_ZONE: u16 = 10;

/// The version of EDNS is not implemented (RFC 6891 6.1.3).
pub const BAD_VERS: u16 = 16;
