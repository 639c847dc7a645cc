//! Which requests are let in, and the message of one (RFC 8484 4.1).

ghost use Rattle.std.specs.Prelude.{◌≡◌, ◌||◌, Err, IfErr, codes, option_copied};
ghost use Rattle.http.specs.Request.{head_of, body_of};
ghost use Rattle.dns_io.specs.Told.{Told};
ghost use Rattle.dns_net.specs.Bodies.{AsksNext, Fetches, FetchesBytes, IsFetched, IsReadOnce};
ghost use Rattle.dns_net.specs.Checks.{body_asked, is_dns_message, is_get, taken, verdict, IfInBody, IfInQuery};
ghost use Rattle.dns_net.specs.Queries.{text_in, TellsMessage};
ghost use Rattle.http_header.specs.HeaderMap.{get};
ghost use Rattle.http_uri.specs.Uri.{uri_query};
ghost use Rattle.dns_transport.specs.Faults.{HasCause, IsBadRequest};

use crate::checks::{accepts, is_at, is_dns_message, is_https, said_length};
use crate::fetch::fetch_body;
use crate::place::Place;
use crate::query::message_in;
use crate::version::Version;
use dns_io::Octets;
use dns_transport::{BadRequestKind, BodyPieces, NetError};
use http::Request;
use std::alloc::Global;

/// Whether a request asks for DNS: at this path and, where a name is given, this host, by https, with a message as its
/// body where its method is not GET, an answer that may be one, and in this version of HTTP. The answer is the first of these that does
/// not hold. Takes no memory, and does not look at the body.
pub fn verify<T>(
    version: Version,
    name_server: Option<&str>,
    query_path: &str,
    request: &Request<T>,
) -> Result<(), NetError>
    ensures first { result ≡ verdict version (option_copied name_server.entry) query_path.now (head_of request.now) }
    ensures kind { IfErr result IsBadRequest }
{
    if request.uri().path() != query_path {
        return Err(NetError::BadRequest(BadRequestKind::Path));
    }
    if !is_https(request.uri()) {
        return Err(NetError::BadRequest(BadRequestKind::Scheme));
    }
    if !is_at(name_server, request.uri()) {
        return Err(NetError::BadRequest(BadRequestKind::Authority));
    }
    if !has_message_type(request) {
        return Err(NetError::BadRequest(BadRequestKind::ContentType));
    }
    if !accepts(request.headers()) {
        return Err(NetError::BadRequest(BadRequestKind::Accept));
    }
    if !version.is(request.version()) {
        return Err(NetError::BadRequest(BadRequestKind::Version));
    }
    Ok(())
}

/// Whether the body of a request is said to be a message, or the method is GET, by which it has none.
fn has_message_type<T>(request: &Request<T>) -> bool
    ensures { result ≡ (is_get (head_of request.now).method || is_dns_message (get (head_of request.now).headers (codes "content-type"))) }
{
    request.method().as_str() == "GET" || is_dns_message(request.headers())
}

/// The message of a request: `verify`, and then by GET what the query of the target says, and nothing else is looked at. By another
/// method, how long the body is said to be, then whether the method is POST, and then the body. Nothing of the body is read where one of
/// the former fails; then the request is as it was.
pub fn message_from<R: BodyPieces>(
    alloc: Global,
    version: Version,
    name: Option<&str>,
    endpoint: &str,
    request: &mut Request<R>,
) -> Result<Octets, NetError>
    ensures refused { IfErr (taken version (option_copied name.entry) endpoint.now (head_of request.old))
        (λ fault. (result ≡ Err fault) × (request.new ≡ request.old)) }
    ensures queried { IfInQuery (taken version (option_copied name.entry) endpoint.now (head_of request.old))
        (TellsMessage (text_in (uri_query (head_of request.old).uri)) result × (request.new ≡ request.old)) }
    ensures told { IfInBody (taken version (option_copied name.entry) endpoint.now (head_of request.old))
        (λ length. Told (Fetches length result) (R.told (body_of request.old)).left (R.told (body_of request.new)).left) }
    ensures read { IfInBody (taken version (option_copied name.entry) endpoint.now (head_of request.old))
        (λ length. IsReadOnce (AsksNext R.told) length (body_of request.old) result (body_of request.new)) }
    ensures kind { IfInBody (taken version (option_copied name.entry) endpoint.now (head_of request.old))
        (λ length. IsFetched length result) }
    ensures told_bytes { IfInBody (taken version (option_copied name.entry) endpoint.now (head_of request.old))
        (λ length. Told (FetchesBytes length result) (R.told (body_of request.old)).left_bytes (R.told (body_of request.new)).left_bytes) }
    ensures head { head_of request.new ≡ head_of request.old }
    ensures cause { HasCause (R.told (body_of request.old)).faults (R.told (body_of request.new)).faults result }
{
    let place = taken(version, name, endpoint, &*request)?;
    match place {
        Place::Query => message_in(alloc, request.uri().query()),
        Place::Body(length) => fetch_body(alloc, request.body_mut(), length),
    }
}

/// What `verify` says, and then where the message stands: by GET in the query, and else in the body, where its length is a number and the
/// method is POST.
fn taken<T>(
    version: Version,
    name: Option<&str>,
    endpoint: &str,
    request: &Request<T>,
) -> Result<Place, NetError>
    ensures first { result ≡ taken version (option_copied name.entry) endpoint.now (head_of request.now) }
    ensures kind { IfErr result IsBadRequest }
{
    verify(version, name, endpoint, request)?;
    if request.method().as_str() == "GET" {
        return Ok(Place::Query);
    }
    body_asked(request)
}

/// How long the body is said to be, where that is a number and the method is POST.
fn body_asked<T>(request: &Request<T>) -> Result<Place, NetError>
    ensures first { result ≡ body_asked (head_of request.now) }
    ensures kind { IfErr result IsBadRequest }
{
    let length = said_length(
        request.headers(),
        NetError::BadRequest(BadRequestKind::LengthText),
    )?;
    if request.method().as_str() != "POST" {
        return Err(NetError::BadRequest(BadRequestKind::Method));
    }
    Ok(Place::Body(length))
}
