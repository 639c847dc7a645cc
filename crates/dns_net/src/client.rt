//! How a message is sent over a link, by the clients of both versions of HTTP.

ghost use Rattle.std.specs.Prelude.{◌≡◌, [], string_bytes};
ghost use Rattle.std.specs.Option.{option_map_or, option_and_then};
ghost use Rattle.dns_net.specs.Answers.{WentOver, HasSendCause};
ghost use Rattle.dns_net.specs.Clients.{Asks, SendsOver};
ghost use Rattle.dns_transport.specs.Faults.{HasNetCause};

use crate::answer::answer_of;
use crate::context::RequestContext;
use crate::link::HttpLink;
use dns_io::Octets;
use dns_transport::{NetError, bytes_with_id_0};
use dns_wire::Message;
use http::Request;
use std::alloc::Global;

/// Sends a message, with the id 0, and gives the message of the response.
pub(crate) fn send_over<L: HttpLink>(
    alloc: Global,
    context: &RequestContext,
    link: &mut L,
    limit: Option<u64>,
    message: &Message,
) -> Result<Message, NetError>
    ensures sent { SendsOver L.Body.told L.link
        (record {
          version = context.now.version;
          name = string_bytes context.now.server_name;
          path = string_bytes context.now.query_path;
          pairs = option_map_or (λ object. pairs object) context.now.set_headers [];
          refused = option_and_then (λ object. refuses object) context.now.set_headers;
          limit = limit;
        })
        link.old message.now result link.new }
    ensures cause { HasSendCause (L.link.told link.old).faults (L.link.told link.new).faults
        (option_and_then (λ object. refuses object) context.now.set_headers) result }
    ensures out { (L.link.told link.new).given_out ≡ (L.link.told link.old).given_out }
{
    let request = request_of(alloc, context, limit, message)?;
    exchange_over(alloc, link, request, limit)
}

/// The request that carries a message.
fn request_of(
    alloc: Global,
    context: &RequestContext,
    limit: Option<u64>,
    message: &Message,
) -> Result<Request<Octets>, NetError>
    ensures { Asks (record {
      version = context.now.version;
      name = string_bytes context.now.server_name;
      path = string_bytes context.now.query_path;
      pairs = option_map_or (λ object. pairs object) context.now.set_headers [];
      refused = option_and_then (λ object. refuses object) context.now.set_headers;
      limit = limit;
    }) message.now result }
{
    let bytes = bytes_with_id_0(alloc, message)?;
    let (head, _) = context.build(alloc, bytes.len())?.into_parts();
    Ok(Request::from_parts(head, bytes))
}

/// Exchanges a request for the message of its response, whose body goes back to the link whatever it says.
fn exchange_over<L: HttpLink>(
    alloc: Global,
    link: &mut L,
    request: Request<Octets>,
    limit: Option<u64>,
) -> Result<Message, NetError>
    ensures went { WentOver L.Body.told L.link link.old request limit result link.new }
    ensures cause { HasNetCause (L.link.told link.old).faults (L.link.told link.new).faults result }
    ensures out { (L.link.told link.new).given_out ≡ (L.link.told link.old).given_out }
{
    let response = link.exchange(request, limit)?;
    let (head, mut body) = response.into_parts();
    let answer = answer_of(alloc, &head, &mut body);
    link.done(body);
    answer
}
