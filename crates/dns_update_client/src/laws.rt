//! What an exchange obeys: each law is a call that does nothing and whose contract is the law.

ghost use Rattle.std.specs.Prelude.{◌≡◌, ◌≤◌, ◌++◌, ℕ, List, Option, Some, false, length, map};
ghost use Rattle.std.specs.List.{AllByRecursion};
ghost use Rattle.dns_frames.specs.Frames.{frames, ahead};
ghost use Rattle.dns_wire.specs.declared.message.Message.{Message};
ghost use Rattle.dns_book.specs.Access.{Access};
ghost use Rattle.dns_book.specs.declared.ask.Ask.{Ask as Asked};
ghost use Rattle.dns_book.specs.declared.ask.Settled.{Settled as Done};
ghost use Rattle.dns_book.specs.Book.{SeenOf, Settles};
ghost use Rattle.dns_book.specs.Sources.{IsSafe};
ghost use Rattle.dns_wire.specs.MessageBytes.{message_bytes};
ghost use Rattle.dns_update_client.specs.declared.submit_fault.SubmitFault.{SubmitFault as Fault};
ghost use Rattle.dns_update_client.specs.Exchange.{message_frames, Answers, Exchanges, IsDecided, StopsAt};
ghost use Rattle.dns_update_client.specs.Framed.{frames_of};
ghost use Rattle.dns_update_client.specs.SettledUpdates.{IsUpdate, SettlesUpdates};

use dns_keeper::Keeper;

/// The messages and what an input has decide how they are exchanged, where neither the input nor the output fails and memory does
/// not run out.
pub fn decided_exchanges()
    ensures codes { (messages : List Message) (a b left x y : List ℕ) (p q r s : Option (List ℕ))
        → Answers messages a (Some left) (Some x) p q
        → Answers messages b (Some left) (Some y) r s → a ≡ b }
    ensures either { (messages : List Message) (codes left x y : List ℕ) (f : Fault) (p q r s : Option (List ℕ))
        → Answers messages codes (Some left) (Some x) p q
        → StopsAt messages f (Some left) (Some y) r s → IsDecided f → ⊥ }
    ensures fault { (messages : List Message) (left x y : List ℕ) (f g : Fault) (p q r s : Option (List ℕ))
        → StopsAt messages f (Some left) (Some x) p q
        → StopsAt messages g (Some left) (Some y) r s → IsDecided f → IsDecided g → f ≡ g }
{}

/// The replies to updates that a book settles are taken for what they are: where the input has their frames, whatever follows
/// them, all updates are answered, with the codes of the replies that are owed, but where the input or the output fails or memory
/// runs out.
pub fn answered_updates<K: Keeper>()
    ensures exchanged { (access : Access) (before after : SeenOf K) (messages : List Message) (replies : List (List ℕ)) (codes : List ℕ)
        → SettlesUpdates K.keeper access before messages replies codes after → Exchanges messages replies codes }
    ensures codes { (access : Access) (before after : SeenOf K) (messages : List Message)
        (replies : List (List ℕ)) (codes more given rest : List ℕ) (p q : Option (List ℕ))
        → SettlesUpdates K.keeper access before messages replies codes after
        → Answers messages given (Some (frames_of replies ++ more)) (Some rest) p q → given ≡ codes }
    ensures answered { (access : Access) (before after : SeenOf K) (messages : List Message)
        (replies : List (List ℕ)) (codes more rest : List ℕ) (f : Fault) (p q : Option (List ℕ))
        → SettlesUpdates K.keeper access before messages replies codes after
        → StopsAt messages f (Some (frames_of replies ++ more)) (Some rest) p q → IsDecided f → ⊥ }
    // From a safe source an update that says it is a request is owed a reply.
    ensures replied { (access : Access) (before after : SeenOf K) (m : Message) (ask : Asked) (settled : Done)
        → IsUpdate m → m.header.qr ≡ false
        → ask.bytes ≡ message_bytes m → IsSafe ask.source → Settles K.keeper access before ask settled after
        → (bytes : List ℕ) × (settled.reply ≡ Some bytes) }
{}

/// What is sent, and what is received, are streams of messages, each behind its length (RFC 1035 4.2.2): the frames of a stream are
/// those messages, whatever follows them.
pub fn framed_messages()
    ensures frames { (messages : List (List ℕ)) (rest : List ℕ) → AllByRecursion (λ message. length message ≤ 65535) messages
        → frames (frames_of messages ++ rest) ≡ ahead messages (frames rest) }
    ensures sent { (messages : List Message) (replies : List (List ℕ)) (codes rest : List ℕ) → Exchanges messages replies codes
        → frames (message_frames messages ++ rest) ≡ ahead (map message_bytes messages) (frames rest) }
    ensures received { (messages : List Message) (replies : List (List ℕ)) (codes rest : List ℕ) → Exchanges messages replies codes
        → frames (frames_of replies ++ rest) ≡ ahead replies (frames rest) }
{}
