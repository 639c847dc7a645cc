//! What holds of each list that is drawn.

ghost use Rattle.std.specs.Prelude.{◌≤◌, ℕ};
ghost use Rattle.dns_server_core.specs.Valid.{Valid};
ghost use Rattle.dns_server_core.specs.Connections.{new_kept};
ghost use Rattle.dns_generator.specs.Loaded.{loaded};

/// A server to which nothing has happened yet can take every list of at most 100,000 messages. A caller that wants the law
/// calls this.
pub fn valid_lists()
    ensures { (seed count : ℕ) → count ≤ 100000 → Valid new_kept (loaded seed count) }
{}
