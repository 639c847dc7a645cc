//! Requests that carry a message (RFC 8484 4.1).

ghost use Rattle.std.specs.Prelude.{◌≡◌, ◌⊎◌, [], codes, string_bytes, Some, None, IfOk, OnOk, IfErr};
ghost use Rattle.std.specs.Option.{option_map_or, option_and_then};
ghost use Rattle.http.specs.Request.{head_of};
ghost use Rattle.http_uri.specs.Grammar.{IsAuthority, IsPathInput, IsPathOf, without_fragment};
ghost use Rattle.http_uri.specs.Uri.{HasParts};
ghost use Rattle.dns_net.specs.Building.{IsRequest, CanBuild, TellsBuild, request_headers, with_all};
ghost use Rattle.dns_transport.specs.declared.error.NetError.TheVariants.{OutOfMemory as NoMemory};

use crate::headers::request_headers;
use crate::set_headers::SetHeaders;
use crate::version::Version;
use dns_transport::{BuildKind, NetError};
use http::request::Parts;
use http::{Method, Request};
use http_uri::{Authority, PathAndQuery, Scheme, Uri, UriError};
use std::alloc::Global;

/// What the requests to a server have in common.
#[derive(Drop)]
pub struct RequestContext {
    /// The version of HTTP.
    pub version: Version,
    /// The server's name, the authority of each request.
    pub server_name: String,
    /// The path of each request.
    pub query_path: String,
    /// What sets further header fields, or refuses the request.
    pub set_headers: Option<Box<dyn SetHeaders>>,
}

impl RequestContext {
    /// A request for a message of `message_len` bytes, without its body: POST by https. `Build` says which text is not of
    /// its form, the path before the name; a fragment of the path is left out. Then come the further header fields.
    pub fn build(&self, alloc: Global, message_len: usize) -> Result<Request<()>, NetError>
        ensures head { IfOk result (λ request. IsRequest self.now.version
            (string_bytes self.now.server_name) (string_bytes self.now.query_path)
            (with_all (option_map_or (λ object. pairs object) self.now.set_headers []) (request_headers message_len)) (head_of request)) }
        ensures ok { OnOk result (CanBuild (string_bytes self.now.server_name) (string_bytes self.now.query_path)
            (option_and_then (λ object. refuses object) self.now.set_headers)) }
        ensures err { IfErr result (TellsBuild (string_bytes self.now.server_name) (string_bytes self.now.query_path)
            (option_and_then (λ object. refuses object) self.now.set_headers)) }
    {
        let uri = uri_of(alloc, self.server_name.as_str(), self.query_path.as_str())?;
        let mut headers = request_headers(alloc, message_len)?;
        if let Some(object) = &self.set_headers {
            object.set_headers(&mut headers)?;
        }
        let mut head = Parts::new(alloc);
        head.method = Method::POST;
        head.uri = uri;
        head.version = self.version.http();
        head.headers = headers;
        Ok(Request::from_parts(head, ()))
    }
}

/// The target of a request.
fn uri_of(alloc: Global, name: &str, path: &str) -> Result<Uri, NetError>
    ensures ok { IfOk result (λ uri. HasParts uri (Some (codes "https")) (Some name.now) (without_fragment path.now)) }
    ensures forms { OnOk result (CanBuild name.now path.now None) }
    ensures err { IfErr result (TellsBuild name.now path.now None) }
{
    let path = path_of(alloc, path)?;
    let authority = authority_of(alloc, name)?;
    let parts = http_uri::Parts {
        scheme: Some(Scheme::HTTPS),
        authority: Some(authority),
        path_and_query: Some(path),
    };
    Ok(Uri::from_parts(parts).unwrap())
}

/// The path, and why it is none.
fn path_of(alloc: Global, path: &str) -> Result<PathAndQuery, NetError>
    ensures ok { IfOk result (IsPathOf path.now) }
    ensures err { IfErr result (λ fault. ((fault ≡ NetError.Build BuildKind.Path) × ¬ (IsPathInput path.now)) ⊎ (fault ≡ NoMemory)) }
{
    match PathAndQuery::from_str(alloc, path) {
        Ok(path) => Ok(path),
        Err(UriError::Invalid(_)) => Err(NetError::Build(BuildKind::Path)),
        Err(UriError::OutOfMemory) => Err(NetError::OutOfMemory),
    }
}

/// The authority, and why it is none.
fn authority_of(alloc: Global, name: &str) -> Result<Authority, NetError>
    ensures ok { IfOk result (λ authority. IsAuthority name.now × (authority ≡ name.now)) }
    ensures err { IfErr result (λ fault. ((fault ≡ NetError.Build BuildKind.Authority) × ¬ (IsAuthority name.now)) ⊎ (fault ≡ NoMemory)) }
{
    match Authority::from_str(alloc, name) {
        Ok(authority) => Ok(authority),
        Err(UriError::Invalid(_)) => Err(NetError::Build(BuildKind::Authority)),
        Err(UriError::OutOfMemory) => Err(NetError::OutOfMemory),
    }
}
