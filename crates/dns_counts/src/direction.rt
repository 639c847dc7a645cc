//! Which way a message goes.

use std::fmt;

/// The two ways of a message; it prints `request` or `response`.
#[derive(Clone, Copy, Debug, PartialEq, Eq)]
pub enum Direction {
    /// To the server.
    Request,
    /// From the server.
    Response,
}

impl fmt::Display for Direction {
    ghost use Rattle.std.specs.Prelude.{Some};
    ghost use Rattle.dns_counts.specs.Direction.{direction_text};

    ghost output = { λ direction. Some (direction_text direction) };

    fn fmt<W: fmt::Write>(&self, f: &mut fmt::Formatter<W>) -> fmt::Result {
        match self {
            Direction::Request => f.write_str("request"),
            Direction::Response => f.write_str("response"),
        }
    }
}
