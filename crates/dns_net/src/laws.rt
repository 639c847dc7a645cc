//! Laws over what comes of requests and their bodies. A caller that wants one calls it.

ghost use Rattle.std.specs.Prelude.{◌≡◌, ℕ, List, Option, Result, Ok, IsErrOf, option_map};
ghost use Rattle.http.specs.declared.request.Parts.{Parts as Head};
ghost use Rattle.http_uri.specs.Grammar.{authority_host};
ghost use Rattle.http_uri.specs.Uri.{uri_path, uri_authority};
ghost use Rattle.dns_net.specs.Bodies.{Fetches, FetchesBytes, whole_body};
ghost use Rattle.dns_net.specs.Building.{IsRequest, request_headers};
ghost use Rattle.dns_net.specs.Checks.{verdict};
ghost use Rattle.dns_transport.specs.declared.error.NetError.{NetError as Fault};
ghost use Rattle.dns_transport.specs.Pieces.{joined};
ghost use Rattle.dns_transport.specs.declared.error.NetError.TheVariants.{Io, OutOfMemory};
ghost use Rattle.dns_net.specs.declared.version.Version.{Version as Http};

/// What comes of fetching a body depends on its bytes and the length that was said alone, however they are cut, where no
/// piece is faulty and memory lasts.
pub fn fetching()
    ensures { (said : Option ℕ) (left rest : List (List ℕ)) (other_left other_rest : List (List ℕ)) (result other : Result (List ℕ) Fault)
        → Fetches said result left rest → Fetches said other other_left other_rest → joined left ≡ joined other_left
        → ¬ (IsErrOf result Io) → ¬ (IsErrOf other Io) → ¬ (IsErrOf result OutOfMemory) → ¬ (IsErrOf other OutOfMemory) → result ≡ other }
{}

/// What comes of fetching a body that tells its bytes is what they and the length that was said come to, where no piece is faulty and
/// memory lasts; so it is the same for a body that tells pieces with these bytes.
pub fn fetching_bytes()
    ensures bytes { (said : Option ℕ) (left rest : List ℕ) (result : Result (List ℕ) Fault) → FetchesBytes said result left rest
        → ¬ (IsErrOf result Io) → ¬ (IsErrOf result OutOfMemory) → whole_body said left ≡ result }
    ensures pieces { (said : Option ℕ) (left rest : List (List ℕ)) (result : Result (List ℕ) Fault) → Fetches said result left rest
        → ¬ (IsErrOf result Io) → ¬ (IsErrOf result OutOfMemory) → whole_body said (joined left) ≡ result }
{}

/// A request that is built without further header fields is let in, for its version, its host and its path.
pub fn building()
    ensures { (version : Http) (name path : List ℕ) (count : ℕ) (head : Head) → IsRequest version name path (request_headers count) head
        → verdict version (option_map authority_host (uri_authority head.uri)) (uri_path head.uri) head ≡ Ok tt }
{}
