//! What holds of the messages that lists of events complete: each law is a call that does nothing and whose contract is
//! the law.

ghost use Rattle.std.specs.Prelude.{◌∷◌, ◌≡◌, ◌++◌, ℕ, List};
ghost use Rattle.dns_server_core.specs.declared.event.Event.{Event};
ghost use Rattle.dns_server_core.specs.declared.event.Event.TheVariants.{Bytes};
ghost use Rattle.dns_server_core.specs.Connections.{Kept, done};
ghost use Rattle.dns_server_core.specs.Order.{IsKept};
ghost use Rattle.dns_server_core.specs.Valid.{Valid};

/// What the messages are that a list of events completes.
pub fn completed_messages()
    // A piece of a connection may be cut in two pieces of its moment: no message that is completed changes, nor their order.
    // So the replies are those of the bytes, however the bytes are cut.
    ensures cut { (kept : Kept) (front back : List Event) (at number : ℕ) (piece more : List ℕ) → IsKept kept
        → Valid kept (front ++ Bytes at number (piece ++ more) ∷ back)
        → done kept (front ++ Bytes at number (piece ++ more) ∷ back)
        ≡ done kept (front ++ Bytes at number piece ∷ Bytes at number more ∷ back) }
{}
