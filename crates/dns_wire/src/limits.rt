//! How many bytes messages and their parts take at most.

/// How many bytes of UDP payload each party takes at least: the limit of a reply to a message without OPT (RFC 1035
/// 4.2.1), and the payload that an OPT which says less is read as (RFC 6891 6.2.3).
pub const MIN_UDP_PAYLOAD: u16 = 512;

/// How many bytes a message has at most, since its length is written in two bytes (RFC 1035 4.2.2).
pub const MAX_MESSAGE_LEN: u16 = 65_535;

/// How many bytes the data of a record has at most, since its length is written in two bytes (RFC 1035 3.2.1).
pub const MAX_DATA_LEN: u16 = 65_535;

/// How many bytes one of the byte strings of a TXT record has at most, since its length is written in one (RFC 1035 3.3).
pub const MAX_TEXT_LEN: u8 = 255;
