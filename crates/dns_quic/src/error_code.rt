//! The codes with which streams and connections are ended.

ghost use Rattle.std.specs.Prelude.{◌≡◌};
ghost use Rattle.dns_quic.specs.Codes.{code_of, number_of};

/// Why a stream or a connection is ended (RFC 9250 4.3).
#[derive(Clone, Copy, Debug)]
pub enum DoqErrorCode {
    /// Nothing went wrong.
    NoError,
    /// An internal error of this side.
    InternalError,
    /// The other side broke the protocol.
    ProtocolError,
    /// The client gave up the request.
    RequestCancelled,
    /// This side has too much to do.
    ExcessiveLoad,
    /// The number that is kept for tests.
    ErrorReserved,
    /// A number that has no name.
    Unknown(u32),
}

/// The code that a number names. A number above 32 bits is `ProtocolError`. Takes no memory.
impl From<u64> for DoqErrorCode {
    ghost from_gives = { λ number code. code ≡ code_of number };

    fn from(number: u64) -> DoqErrorCode {
        match number {
            0 => DoqErrorCode::NoError,
            1 => DoqErrorCode::InternalError,
            2 => DoqErrorCode::ProtocolError,
            3 => DoqErrorCode::RequestCancelled,
            4 => DoqErrorCode::ExcessiveLoad,
            0xd098_ea5e => DoqErrorCode::ErrorReserved,
            number if number < 0x1_0000_0000 => DoqErrorCode::Unknown(number as u32),
            _ => DoqErrorCode::ProtocolError,
        }
    }
}

/// The number of a code. Takes no memory.
impl From<DoqErrorCode> for u64 {
    ghost from_gives = { λ code number. number ≡ number_of code };

    fn from(code: DoqErrorCode) -> u64 {
        match code {
            DoqErrorCode::NoError => 0,
            DoqErrorCode::InternalError => 1,
            DoqErrorCode::ProtocolError => 2,
            DoqErrorCode::RequestCancelled => 3,
            DoqErrorCode::ExcessiveLoad => 4,
            DoqErrorCode::ErrorReserved => 0xd098_ea5e,
            DoqErrorCode::Unknown(number) => u64::from(number),
        }
    }
}
