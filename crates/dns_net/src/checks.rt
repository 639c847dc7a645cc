//! What a request must have to be let in (RFC 8484 4.1, 6), check by check. No check takes memory.

ghost use Rattle.std.specs.Prelude.{◌≡◌, ◌<◌, ◌==◌, [], ◌∷◌, true, false, codes, length, option_copied, IfSome, MatchOption};
ghost use Rattle.std.specs.List.{slice_split, before_first};
ghost use Rattle.std.specs.Option.{option_map_or};
ghost use Rattle.http_header.specs.HeaderMap.{get};
ghost use Rattle.http_header.specs.FieldValue.{is_visible_text};
ghost use Rattle.dns_net.specs.Checks.{is_https, is_at, is_dns_message, accepts, has_range, is_range, range_of, said_length, bytes_said};

use dns_transport::NetError;
use http::{HeaderMap, HeaderValue, Uri};

/// Whether the scheme is https, its letters in either case.
pub(crate) fn is_https(uri: &Uri) -> bool
    ensures { result ≡ is_https uri.now }
{
    match uri.scheme_str() {
        None => false,
        Some(scheme) => scheme.eq_ignore_ascii_case("https"),
    }
}

/// Whether the host is this one, where one is asked for.
pub(crate) fn is_at(asked: Option<&str>, uri: &Uri) -> bool
    ensures { result ≡ is_at (option_copied asked.entry) uri.now }
{
    let Some(name) = asked else {
        return true;
    };
    match uri.host() {
        None => false,
        Some(host) => host == name,
    }
}

/// Whether the first Content-Type is that of messages.
pub(crate) fn is_dns_message(headers: &HeaderMap) -> bool
    ensures { result ≡ is_dns_message (get headers.now (codes "content-type")) }
{
    match headers.get("content-type") {
        None => false,
        Some(value) => value.as_bytes() == b"application/dns-message".as_slice(),
    }
}

/// Whether the first Accept leaves room for messages.
pub(crate) fn accepts(headers: &HeaderMap) -> bool
    ensures { result ≡ accepts (get headers.now (codes "accept")) }
{
    let Some(value) = headers.get("accept") else {
        return false;
    };
    match visible_text(value) {
        None => false,
        Some(text) => has_range(text),
    }
}

/// The text of a value, where it is visible ASCII, spaces and tabs.
fn visible_text(value: &HeaderValue) -> Option<&str>
    ensures { MatchOption result (is_visible_text value.now.bytes ≡ false)
        (λ text. (text.now ≡ value.now.bytes) × (is_visible_text value.now.bytes ≡ true)) }
{
    match value.to_str() {
        Ok(text) => Some(text),
        Err(_) => None,
    }
}

/// Whether messages are of one of the media ranges, which commas part.
fn has_range(value: &str) -> bool
    ensures { result ≡ has_range value.now }
{
    let mut rest = Some(value);
    while let Some(text) = rest {
        let (part, after) = cut(text, ',');
        if is_range(range_of(part)) {
            return true;
        }
        rest = after;
    }
    false
}

/// The media range of a part, without its parameters.
fn range_of(part: &str) -> &str
    ensures { result.now ≡ range_of part.now }
{
    let (range, _) = cut(part, ';');
    range.trim()
}

/// What stands before the first `mark`, and what stands behind it, where there is one.
pub(crate) fn cut(text: &str, mark: char) -> (&str, Option<&str>)
    requires { mark < 128 }
    ensures before { result.0.now ≡ before_first (λ b. b == mark) text.now }
    ensures parts { slice_split (λ b. b == mark) text.now
        ≡ result.0.now ∷ option_map_or (λ rest. slice_split (λ b. b == mark) rest.now) result.1 [] }
    ensures shorter { IfSome result.1 (λ rest. length rest.now < length text.now) }
{
    match text.split_once(mark) {
        Some((before, after)) => (before, Some(after)),
        None => (text, None),
    }
}

/// Whether messages are of this media range.
fn is_range(range: &str) -> bool
    ensures { result ≡ is_range range.now }
{
    range == "application/dns-message" || range == "application/*"
}

/// How long the body is said to be by the first Content-Length, where one is given (RFC 9110 8.6). `fault` is the
/// answer where what it says is no number of bytes.
pub(crate) fn said_length(headers: &HeaderMap, fault: NetError) -> Result<Option<usize>, NetError>
    ensures { result ≡ said_length fault (get headers.now (codes "content-length")) }
{
    let Some(value) = headers.get("content-length") else {
        return Ok(None);
    };
    match bytes_said(value) {
        None => Err(fault),
        Some(count) => Ok(Some(count)),
    }
}

/// The number of bytes that a value says.
fn bytes_said(value: &HeaderValue) -> Option<usize>
    ensures { result ≡ bytes_said value.now.bytes }
{
    let text = visible_text(value)?;
    match text.parse::<usize>() {
        Ok(count) => Some(count),
        Err(_) => None,
    }
}
