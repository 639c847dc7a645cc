//! How many messages go over one connection.

ghost use Rattle.std.specs.Prelude.{◌≡◌, ◌↔◌, ◌≤◌, true};

/// So many messages go over one connection, and those behind them over a new one: a server may let a connection have no more (RFC 9210
/// 4.2). This project's own closes it behind so many.
pub const MOST_MESSAGES: u64 = 100;

/// Whether the next message goes over a new connection, where so many went over the one that there is.
pub fn is_used_up(sent: u64) -> bool
    ensures { (result ≡ true) ↔ (100 ≤ sent) }
{
    MOST_MESSAGES <= sent
}
