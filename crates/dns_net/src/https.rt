//! Clients over HTTP/2 (RFC 8484 5.2).

ghost use Rattle.std.specs.Prelude.{◌≡◌, [], true, false, Some, None, Ok, IsNone, MatchOption, MatchBool, string_bytes};
ghost use Rattle.std.specs.Option.{option_map_or, option_and_then};
ghost use Rattle.dns_net.specs.Answers.{HasSendCause};
ghost use Rattle.dns_net.specs.Clients.{Sends};
ghost use Rattle.dns_transport.specs.declared.poll.Poll.TheVariants.{Ready};
ghost use Rattle.dns_net.specs.declared.version.Version.TheVariants.{Http2};

use crate::client::send_over;
use crate::context::RequestContext;
use crate::link::HttpLink;
use crate::set_headers::SetHeaders;
use crate::version::Version;
use dns_transport::{NetError, Poll};
use dns_wire::Message;
use std::alloc::Global;

/// What a client over HTTP/2 is made of, besides the server's name and the path. At first nothing sets header fields, and there is no limit.
#[derive(Drop)]
pub struct HttpsClientStreamBuilder<L> {
    link: L,
    set_headers: Option<Box<dyn SetHeaders>>,
    limit: Option<u64>,
}

impl<L: HttpLink> HttpsClientStreamBuilder<L> {
    /// Has this object set header fields of each request, in place of an earlier one.
    pub fn set_headers(&mut self, headers: Box<dyn SetHeaders>)
        ensures set { MatchOption self.new.set_headers ⊥ (λ object. (pairs object ≡ pairs headers) × (refuses object ≡ refuses headers)) }
        ensures link { self.new.link ≡ self.old.link }
        ensures limit { self.new.limit ≡ self.old.limit }
    {
        self.set_headers = Some(headers);
    }

    /// Limits each exchange to this number of milliseconds.
    pub fn request_timeout(&mut self, limit: u64)
        ensures { self.new ≡ record self.old { limit = Some limit } }
    {
        self.limit = Some(limit);
    }

    /// A client of the server of this name, at this path. Takes no memory.
    pub fn build(self, server_name: String, path: String) -> HttpsClientStream<L>
        ensures link { result.link ≡ self.link }
        ensures limit { result.limit ≡ self.limit }
        ensures open { result.is_shut ≡ false }
        ensures version { result.context.version ≡ Http2 }
        ensures name { string_bytes result.context.server_name ≡ string_bytes server_name }
        ensures path { string_bytes result.context.query_path ≡ string_bytes path }
        ensures pairs { option_map_or (λ object. pairs object) result.context.set_headers []
            ≡ option_map_or (λ object. pairs object) self.set_headers [] }
        ensures refuses { option_and_then (λ object. refuses object) result.context.set_headers
            ≡ option_and_then (λ object. refuses object) self.set_headers }
    {
        let HttpsClientStreamBuilder {
            link,
            set_headers,
            limit,
        } = self;
        HttpsClientStream {
            context: RequestContext {
                version: Version::Http2,
                server_name,
                query_path: path,
                set_headers,
            },
            link,
            limit,
            is_shut: false,
        }
    }
}

/// A client over HTTP/2.
#[derive(Drop)]
pub struct HttpsClientStream<L> {
    context: RequestContext,
    link: L,
    limit: Option<u64>,
    is_shut: bool,
}

impl<L: HttpLink> HttpsClientStream<L> {
    /// What a client over this link is made of. Takes no memory.
    pub fn builder(link: L) -> HttpsClientStreamBuilder<L>
        ensures link { result.link ≡ link }
        ensures unset { IsNone result.set_headers }
        ensures unlimited { result.limit ≡ None }
    {
        HttpsClientStreamBuilder {
            link,
            set_headers: None,
            limit: None,
        }
    }

    /// Sends a message, with the id 0 (RFC 8484 4.1), and gives the message of the response. The answer is the first of
    /// these: the client was shut down; the message cannot be written; no request can be made; the link gave no response;
    /// the response's length is no number; what comes of its body; its status; its type; its message cannot be read. The
    /// body of a response goes back to the link whatever it says.
    pub fn send_message(&mut self, alloc: Global, request: &Message) -> Result<Message, NetError>
        ensures sends { Sends L.Body.told L.link self.old.is_shut
            (record {
              version = self.old.context.version;
              name = string_bytes self.old.context.server_name;
              path = string_bytes self.old.context.query_path;
              pairs = option_map_or (λ object. pairs object) self.old.context.set_headers [];
              refused = option_and_then (λ object. refuses object) self.old.context.set_headers;
              limit = self.old.limit;
            })
            self.old.link request.now result self.new.link }
        ensures kept { self.new ≡ record self.old { link = self.new.link } }
        ensures cause { HasSendCause (L.link.told self.old.link).faults (L.link.told self.new.link).faults
            (option_and_then (λ object. refuses object) self.old.context.set_headers) result }
        ensures out { (L.link.told self.new.link).given_out ≡ (L.link.told self.old.link).given_out }
    {
        if self.is_shut {
            return Err(NetError::ShutDown);
        }
        send_over(alloc, &self.context, &mut self.link, self.limit, request)
    }

    /// Ends the client: it sends nothing any more.
    pub fn shutdown(&mut self)
        ensures { self.new ≡ record self.old { is_shut = true } }
    {
        self.is_shut = true;
    }

    /// Whether it was shut down.
    pub fn is_shutdown(&self) -> bool
        ensures { result ≡ self.now.is_shut }
    {
        self.is_shut
    }

    /// That a message can be sent, or after a shutdown that none will be.
    pub fn poll_next(&mut self) -> Poll<Option<Result<(), NetError>>>
        ensures answer { MatchBool self.old.is_shut (result ≡ Ready None) (result ≡ Ready (Some (Ok tt))) }
        ensures kept { self.new ≡ self.old }
    {
        if self.is_shut {
            return Poll::Ready(None);
        }
        Poll::Ready(Some(Ok(())))
    }

    /// Its link.
    pub fn link(&self) -> &L
        ensures { result.now ≡ self.now.link }
    {
        &self.link
    }
}
