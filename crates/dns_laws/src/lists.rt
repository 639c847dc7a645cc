//! What holds of the messages that lists of events complete, and of those of one connection among them: each law is a call that does
//! nothing and whose contract is the law.

ghost use Rattle.std.specs.Prelude.{◌≡◌, ◌∷◌, ◌++◌, ℕ, List, map, true, false};
ghost use Rattle.dns_io.specs.declared.peer.Peer.{Peer};
ghost use Rattle.dns_laws.specs.Receivers.{messages_to};
ghost use Rattle.dns_laws.specs.OneConnection.{IsNeverAccepted, on};
ghost use Rattle.dns_requests.specs.Arrivals.{asks_of, opened};
ghost use Rattle.dns_server_core.specs.declared.event.Event.{Event};
ghost use Rattle.dns_server_core.specs.declared.event.Event.TheVariants.{Accepted};
ghost use Rattle.dns_server_core.specs.declared.event.Receiver.TheVariants.{Conn};
ghost use Rattle.dns_server_core.specs.Connections.{Kept, after, byte_events, done, is_safe, new_kept};
ghost use Rattle.dns_server_core.specs.Events.{moment};
ghost use Rattle.dns_server_core.specs.Order.{IsKept};
ghost use Rattle.dns_server_core.specs.Valid.{NeverFalls, StopIsLast};

/// What lists that follow one another complete and leave, where the first has no stop, and no moment of the second is below the one
/// before it: as much as one list that has the events of both, which may be longer than a server takes at once.
pub fn lists_in_turn()
    // The messages of the one list are those of the first, and then those of the second. One whose time was over at the end of the
    // first list completes nothing later.
    ensures messages { (kept : Kept) (front back : List Event) → IsKept kept → (after kept front).stopped ≡ false
        → NeverFalls (after kept front).last (map moment back)
        → done kept (front ++ back) ≡ done kept front ++ done (after kept front) back }
    // What is kept behind them is the same.
    ensures left { (kept : Kept) (front back : List Event) → IsKept kept → (after kept front).stopped ≡ false
        → NeverFalls (after kept front).last (map moment back) → StopIsLast back
        → after kept (front ++ back) ≡ after (after kept front) back }
{}

/// What a connection from a safe peer completes among all others, where its number is accepted once.
pub fn one_connection()
    // Of all messages, those whose replies go to it are the ones that the same pieces of bytes, at the same moments, complete where the
    // connection is served by itself, in that order.
    ensures { (front back : List Event) (at number : ℕ) (peer : Peer) (limit : ℕ) → is_safe peer ≡ true
        → IsNeverAccepted number front → IsNeverAccepted number back
        → messages_to (Conn number) (done new_kept (front ++ Accepted at number peer limit ∷ back))
        ≡ map (on number) (asks_of (opened peer limit at) (byte_events number back)) }
{}
