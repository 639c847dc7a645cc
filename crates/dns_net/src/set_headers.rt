//! Header fields that a user adds to each request.

ghost use Rattle.std.specs.Prelude.{◌≡◌, ◌≤◌, ◌⊎◌, ℕ, List, Option, Some, None, length, OnOk, IfErr};
ghost use Rattle.http_header.specs.FieldValue.{FieldValue};
ghost use Rattle.dns_net.specs.Building.{with_all};
ghost use Rattle.dns_transport.specs.declared.error.NetError.{NetError as Fault};

use dns_transport::NetError;
use http::{HeaderMap, HeaderValue};

/// An object that sets header fields of a request, or refuses it.
pub trait SetHeaders: Drop {
    /// The names and values that it sets, in order, at most 1,000.
    ghost pairs: { Self → List (List ℕ × FieldValue) };

    /// What it refuses each request with, if it does.
    ghost refuses: { Self → Option Fault };

    /// Puts each value in the place of all those of its name. After an error it is not said what stands there.
    fn set_headers(&self, headers: &mut HeaderMap<HeaderValue>) -> Result<(), NetError>
        ensures few { length (pairs self.now) ≤ 1000 }
        ensures ok { OnOk result ((refuses self.now ≡ None) × (headers.new ≡ with_all (pairs self.now) headers.old)) }
        ensures err { IfErr result (λ fault. (refuses self.now ≡ Some fault) ⊎ (fault ≡ NetError.OutOfMemory)) };
}
