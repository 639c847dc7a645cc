//! What the replies obey that messages are owed: each law is a call that does nothing and whose contract is the law.

ghost use Rattle.std.specs.Prelude.{◌≡◌, ◌↔◌, ◌≤◌, ◌<◌, ◌-◌, ◌++◌, ◌^◌, ℕ, List, length, take, replicate, [], Option, None, Some, true, false, IsSomeAnd};
ghost use Rattle.dns_wire.specs.declared.header.Header.{Header};
ghost use Rattle.dns_wire.specs.declared.message.Message.{Message as Read};
ghost use Rattle.dns_wire.specs.declared.reply.Reply.{Reply as Replied};
ghost use Rattle.dns_wire.specs.Header.{header_of};
ghost use Rattle.dns_wire.specs.Messages.{MessageAt};
ghost use Rattle.dns_zone_map.specs.Zone.{Contents};
ghost use Rattle.dns_book.specs.declared.ask.Ask.{Ask as Asked};
ghost use Rattle.dns_book.specs.declared.decision.Decision.{Decision as Decided};
ghost use Rattle.dns_book.specs.Cases.{Decides};
ghost use Rattle.dns_book.specs.declared.ask.Settled.{Settled as Done};
ghost use Rattle.dns_book.specs.Owed.{Grounds, id_for, edns_for, limit_of, Owes, OwesBytes, batch_by};
ghost use Rattle.dns_book.specs.Book.{SeenOf, Settles};
ghost use Rattle.dns_io.specs.Told.{Rose};
ghost use Rattle.dns_io.specs.declared.peer.Ip.{Ip as Address};
ghost use Rattle.dns_io.specs.declared.peer.Protocol.TheVariants.{Udp};
ghost use Rattle.dns_book.specs.declared.access.IpNet.{IpNet as Network};
ghost use Rattle.dns_book.specs.Access.{Access, IsPayload, lets_in, is_one_family, address_bits, share_front, net_of, lies_in};

use dns_keeper::Keeper;
use dns_wire::laws::{standing_messages, written_replies};

/// What holds of the bytes that a message is owed.
pub fn owed_replies()
    // One case is decided of a message, and it is owed one reply, or none, in one written form.
    ensures decided { (zone : Contents) (access : Access) (ask : Asked) (a b : Option Decided)
        → Decides zone access ask a → Decides zone access ask b → a ≡ b }
    ensures reply { (grounds : Grounds) (access : Access) (ask : Asked) (a b : Option Replied)
        → Owes grounds access ask a → Owes grounds access ask b → a ≡ b }
    ensures one { (grounds : Grounds) (access : Access) (ask : Asked) (a b : Option (List ℕ))
        → OwesBytes grounds access ask a → OwesBytes grounds access ask b → a ≡ b }
    // A reply says that it is one, and has the request's id, or 0 over QUIC.
    ensures header { (grounds : Grounds) (access : Access) (ask : Asked) (h : Header) (bytes : List ℕ)
        → header_of ask.bytes ≡ Some h → h.id < 2 ^ 16
        → OwesBytes grounds access ask (Some bytes) → IsSomeAnd (header_of bytes) (λ r. (r.id ≡ id_for ask.protocol h.id) × (r.qr ≡ true)) }
    // It is within the limit that the request sets: over UDP 512 bytes, or what its OPT says where that is more, as far as a datagram goes.
    ensures limit { (grounds : Grounds) (access : Access) (ask : Asked) (m : Read) (bytes : List ℕ) → IsPayload access.payload
        → MessageAt ask.bytes m → OwesBytes grounds access ask (Some bytes)
        → length bytes ≤ limit_of access.payload ask.protocol (edns_for 0 m.edns) }
    // Whatever the request's OPT says, a datagram has no more bytes than it may have.
    ensures datagram { (grounds : Grounds) (access : Access) (ask : Asked) (bytes : List ℕ) → IsPayload access.payload → ask.protocol ≡ Udp
        → OwesBytes grounds access ask (Some bytes) → length bytes ≤ access.payload }
    // Where the request is no message, it is within the limit without an OPT.
    ensures malformed { (grounds : Grounds) (access : Access) (ask : Asked) (bytes : List ℕ) → ((m : Read) → MessageAt ask.bytes m → ⊥)
        → OwesBytes grounds access ask (Some bytes) → length bytes ≤ limit_of access.payload ask.protocol None }
    // So it is where the source is shut out.
    ensures shut_out { (grounds : Grounds) (access : Access) (ask : Asked) (bytes : List ℕ) → lets_in access ask.source.ip ≡ false
        → OwesBytes grounds access ask (Some bytes) → length bytes ≤ limit_of access.payload ask.protocol None }
    // The reply to a source that is shut out is Refused (5), without records and without an OPT.
    ensures refused { (grounds : Grounds) (access : Access) (ask : Asked) (reply : Replied) → lets_in access ask.source.ip ≡ false
        → Owes grounds access ask (Some reply) → (reply.code ≡ 5) × (reply.answers ≡ []) × (reply.edns ≡ None) }
    // A reply that is sent back is owed none.
    ensures silent { (grounds other : Grounds) (access others : Access) (ask again : Asked) (h : Header) (bytes : List ℕ)
        (reply : Option (List ℕ)) → header_of ask.bytes ≡ Some h → h.id < 2 ^ 16
        → OwesBytes grounds access ask (Some bytes) → again.bytes ≡ bytes → OwesBytes other others again reply → reply ≡ None }
{
    standing_messages();
    written_replies();
}

/// What holds of messages that were settled over a keeper.
pub fn settled_messages<K: Keeper>()
    // Its count of faults does not fall.
    ensures later { (access : Access) (before after : SeenOf K) (ask : Asked) (settled : Done)
        → Settles K.keeper access before ask settled after → (K.keeper.told before.keeper).faults ≤ (K.keeper.told after.keeper).faults }
    // Where it did not fail that count is as it was.
    ensures still { (access : Access) (before after : SeenOf K) (ask : Asked) (settled : Done)
        → (is : Settles K.keeper access before ask settled after) → is.failed ≡ false
        → (K.keeper.told after.keeper).faults ≡ (K.keeper.told before.keeper).faults }
    // It failed only where that count rose or stands at its last value, and only at an update with records for the journal.
    ensures rose { (access : Access) (before after : SeenOf K) (ask : Asked) (settled : Done)
        → (is : Settles K.keeper access before ask settled after) → is.failed ≡ true
        → Rose (K.keeper.told before.keeper).faults (K.keeper.told after.keeper).faults }
    ensures some { (access : Access) (before after : SeenOf K) (ask : Asked) (settled : Done)
        → (is : Settles K.keeper access before ask settled after) → is.failed ≡ true
        → 0 < length (batch_by before.zone before.allow_update is.reply.decision) }
    // The reply to an update (opcode 5) is ServFail (2) exactly where it failed.
    ensures servfail { (access : Access) (before after : SeenOf K) (ask : Asked) (settled : Done) (h : Header) (bytes : List ℕ)
        → (is : Settles K.keeper access before ask settled after) → header_of ask.bytes ≡ Some h → h.opcode ≡ 5
        → settled.reply ≡ Some bytes → IsSomeAnd (header_of bytes) (λ r. (r.code ≡ 2) ↔ (is.failed ≡ true)) }
{}

/// What the network of an address's first bits is, whose number is the prefix.
pub fn networks()
    // It has the address's family; its bits are the address's first ones, and then zeros.
    ensures family { (at : Address) (prefix : ℕ) (net : Network) → net_of at prefix ≡ Some net → is_one_family net.ip at ≡ true }
    ensures bits { (at : Address) (prefix : ℕ) (net : Network) → net_of at prefix ≡ Some net
        → address_bits net.ip ≡ take prefix (address_bits at) ++ replicate (length (address_bits at) - prefix) 0 }
    // The addresses that lie in it are those of the address's family whose first bits are its first bits.
    ensures inside { (at ip : Address) (prefix : ℕ) (net : Network)
        → net_of at prefix ≡ Some net → lies_in ip net ≡ share_front prefix ip at }
{}
