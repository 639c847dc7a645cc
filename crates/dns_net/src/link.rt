//! How requests reach a server, and its responses come back.

ghost use Rattle.std.specs.Prelude.{◌≡◌, ◌<◌, IfOk};
ghost use Rattle.http.specs.Response.{body_of};
ghost use Rattle.dns_net.specs.Links.{LinkOf, Exchanges, TakesBack};

use dns_io::Octets;
use dns_transport::{BodyPieces, LinkFault};
use http::{Request, Response};

/// What a link tells of a call.
#[derive(Drop)]
pub enum LinkCall<B> {
    /// A request was exchanged, with this limit in milliseconds, or none.
    Exchanged(Request<Octets>, Option<u64>),
    /// This body came back.
    Returned(B),
}

/// A link over which requests are exchanged for responses. The bodies that it gives out are handed back to it.
pub trait HttpLink {
    type Body: BodyPieces;

    /// What is known of it: the calls so far with what was handed in, where they are told, how many bodies are given out and have not
    /// come back, how many calls failed, up to `u64::MAX`, and what an exchange does. A link may stop telling its calls at any call,
    /// and then never tells them again.
    ghost link: { LinkOf Self Self.Body };

    /// Hands the request to the server, and gives its response; `limit` is how many milliseconds it may take, where
    /// there is a limit. It makes the room that `done` needs for the response's body. Where memory ran out, the call is
    /// not told.
    fn exchange(
        &mut self,
        request: Request<Octets>,
        limit: Option<u64>,
    ) -> Result<Response<Self::Body>, LinkFault>
        ensures told { Exchanges (link.told self.old) (link.told self.new) request limit result }
        ensures next { link.exchanges self.old request limit result self.new }
        ensures fresh { IfOk result (λ response. (Self.Body.told (body_of response)).faults ≡ 0) };

    /// Takes back a body that an exchange gave. It cannot fail, and takes no memory. A body with faults is a fault of
    /// the link.
    fn done(&mut self, body: Self::Body)
        requires { 0 < (link.told self.old).given_out }
        ensures told { TakesBack (link.told self.old) (link.told self.new) body (Self.Body.told body).faults };
}
