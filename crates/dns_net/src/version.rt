//! The versions of HTTP by which messages come, and where they are asked for.

ghost use Rattle.std.specs.Prelude.{◌≡◌};
ghost use Rattle.dns_net.specs.Checks.{http_version, is_version};

/// The version of HTTP of a request and its response.
#[derive(Clone, Copy, Debug)]
pub enum Version {
    /// HTTP/2 (RFC 9113).
    Http2,
    /// HTTP/3 (RFC 9114).
    Http3,
}

impl Version {
    /// The version as the crate `http` names it.
    pub fn http(self) -> http::Version
        ensures { result ≡ http_version self }
    {
        match self {
            Version::Http2 => http::Version::HTTP_2,
            Version::Http3 => http::Version::HTTP_3,
        }
    }

    /// Whether this is the version.
    pub(crate) fn is(self, version: http::Version) -> bool
        ensures { result ≡ is_version self version }
    {
        version == self.http()
    }
}

/// The path at which a server is asked where nothing else is said, as in the examples of RFC 8484 4.1.1.
pub const DEFAULT_DNS_QUERY_PATH: &str = "/dns-query";
