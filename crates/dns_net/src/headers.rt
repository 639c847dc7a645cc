//! The head of a response, and the header fields that tell of a message (RFC 8484 4.1, 4.2).

ghost use Rattle.std.specs.Prelude.{◌≡◌, decimal, codes, IsTrue, IfOk, IfErr, OnOk};
ghost use Rattle.http.specs.Response.{head_of};
ghost use Rattle.http_header.specs.FieldName.{is_field_name};
ghost use Rattle.http_header.specs.Token.{lowercase};
ghost use Rattle.http_header.specs.HeaderMap.{insert};
ghost use Rattle.http_header.specs.FieldValue.{plain_value};
ghost use Rattle.dns_net.specs.Building.{IsResponse, request_headers, response_headers};
ghost use Rattle.dns_net.specs.Checks.{dns_message};
ghost use Rattle.dns_transport.specs.declared.error.NetError.TheVariants.{OutOfMemory as NoMemory};

use crate::version::Version;
use dns_transport::NetError;
use http::response::Parts;
use http::{HeaderMap, HeaderValue, Response, StatusCode};
use std::alloc::Global;

/// The head of a response that carries a message of `message_len` bytes.
pub fn response(
    alloc: Global,
    version: Version,
    message_len: usize,
) -> Result<Response<()>, NetError>
    ensures head { IfOk result (λ response. IsResponse version message_len (head_of response)) }
    ensures err { IfErr result (λ fault. fault ≡ NoMemory) }
{
    let mut head = Parts::new(alloc);
    head.status = StatusCode::OK;
    head.version = version.http();
    head.headers = response_headers(alloc, message_len)?;
    Ok(Response::from_parts(head, ()))
}

/// The header fields of a request for a message of `message_len` bytes.
pub(crate) fn request_headers(alloc: Global, message_len: usize) -> Result<HeaderMap, NetError>
    ensures ok { IfOk result (λ headers. headers ≡ request_headers message_len) }
    ensures err { IfErr result (λ fault. fault ≡ NoMemory) }
{
    let mut headers = HeaderMap::new(alloc);
    put(&mut headers, "content-type", dns_message())?;
    put(&mut headers, "accept", dns_message())?;
    put(
        &mut headers,
        "content-length",
        length_of(alloc, message_len)?,
    )?;
    Ok(headers)
}

/// The header fields of a response with a message of `message_len` bytes.
fn response_headers(alloc: Global, message_len: usize) -> Result<HeaderMap, NetError>
    ensures ok { IfOk result (λ headers. headers ≡ response_headers message_len) }
    ensures err { IfErr result (λ fault. fault ≡ NoMemory) }
{
    let mut headers = HeaderMap::new(alloc);
    put(&mut headers, "content-type", dns_message())?;
    put(
        &mut headers,
        "content-length",
        length_of(alloc, message_len)?,
    )?;
    Ok(headers)
}

/// The media type of messages.
fn dns_message() -> HeaderValue
    ensures { result ≡ plain_value dns_message }
{
    HeaderValue::from_static("application/dns-message")
}

/// A length as it is written.
fn length_of(alloc: Global, length: usize) -> Result<HeaderValue, NetError>
    ensures ok { IfOk result (λ value. value ≡ plain_value (decimal length)) }
    ensures err { IfErr result (λ fault. fault ≡ NoMemory) }
{
    Ok(HeaderValue::from_u64(alloc, length as u64)?)
}

/// Puts a value in the place of all those of its name. A map of few names is never full.
fn put(headers: &mut HeaderMap, name: &str, value: HeaderValue) -> Result<(), NetError>
    requires { IsTrue (is_field_name name.now) }
    ensures ok { OnOk result (headers.new ≡ insert headers.old (lowercase name.now) value) }
    ensures err { IfErr result (λ fault. fault ≡ NoMemory) }
{
    match headers.insert(name, value) {
        Ok(_) => Ok(()),
        Err(_) => Err(NetError::OutOfMemory),
    }
}
