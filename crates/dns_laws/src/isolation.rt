//! That a receiver, a connection or the sender of datagrams, gets the same replies whatever other receivers do: each law is a
//! call that does nothing and whose contract is the law.

ghost use Rattle.std.specs.Prelude.{◌≡◌, ◌↔◌, List, true, None};
ghost use Rattle.dns_book.specs.Access.{Access};
ghost use Rattle.dns_book.specs.Book.{SeenOf, Settles};
ghost use Rattle.dns_book.specs.declared.ask.Ask.{Ask};
ghost use Rattle.dns_book.specs.declared.ask.Settled.{Settled};
ghost use Rattle.dns_server_core.specs.declared.event.Event.{Event};
ghost use Rattle.dns_server_core.specs.declared.event.Out.{Out};
ghost use Rattle.dns_server_core.specs.declared.event.Receiver.{Receiver};
ghost use Rattle.dns_server_core.specs.Connections.{Kept, done};
ghost use Rattle.dns_server_core.specs.Runs.{Run, Answers};
ghost use Rattle.dns_laws.specs.Receivers.{is_one, without_others, messages_to, replies_to};
ghost use Rattle.dns_laws.specs.Isolation.{IsNoUpdate, IsQuiet, AreAlike, IsUnchanged};

use dns_book::laws::owed_replies;
use dns_keeper::Keeper;
use dns_keeper::laws::one_stamp;

/// Which messages a receiver has, whatever a server keeps and whatever list of events comes.
pub fn own_messages()
    // Receivers are told apart.
    ensures one { (a b : Receiver) → (is_one a b ≡ true) ↔ (a ≡ b) }
    // The messages whose replies go to a receiver are those that a list without the events of others completes, in that order and
    // each at its moment; there are no others then.
    ensures own { (kept : Kept) (receiver : Receiver) (events : List Event)
        → messages_to receiver (done kept events) ≡ done kept (without_others receiver events) }
{}

/// What a message that is no update (opcode 5) does to a book.
pub fn queries<K: Keeper>()
    // Nothing changes but what is counted, and the journal gets no row.
    ensures unchanged { (access : Access) (before after : SeenOf K) (ask : Ask) (settled : Settled)
        → Settles K.keeper access before ask settled after
        → IsNoUpdate ask.bytes → IsUnchanged before after × (settled.receipt ≡ None) }
{}

/// That what other receivers do changes nothing for a receiver. Two lists of events are equal without the events of others; they
/// come to servers that kept the same, over alike books; no message of another receiver is an update, and no keeper failed. The
/// lists need not be valid.
///
/// Two calls of `Server::run_events` that answered `Ok` give what `served` asks: their clauses `ok`, where a book before is
/// `self.old.handler` and after `self.new.handler`, and the replies before are `out.old.items` and after `out.new.items`. `IsQuiet`
/// then asks of each call that the keeper's count of faults is what it was.
pub fn isolated<K: Keeper>()
    // The receiver gets the same replies, byte for byte and in the same order, and the books are alike after it: they have the
    // same zone and the same rows.
    ensures runs { (access : Access) (kept : Kept) (receiver : Receiver) (one two : List Event)
        (a b later last : SeenOf K) (outs sent : List Out)
        → without_others receiver one ≡ without_others receiver two → AreAlike K.keeper a b
        → IsQuiet K.keeper receiver (done kept one) a later → Run (Settles K.keeper access) a (done kept one) outs later
        → IsQuiet K.keeper receiver (done kept two) b last → Run (Settles K.keeper access) b (done kept two) sent last
        → (replies_to receiver outs ≡ replies_to receiver sent) × AreAlike K.keeper later last }
    // So it does where replies are added to those that were sent before, which were the same for this receiver.
    ensures served { (access : Access) (kept : Kept) (receiver : Receiver) (one two : List Event)
        (a b later last : SeenOf K) (old new before after : List Out)
        → without_others receiver one ≡ without_others receiver two → AreAlike K.keeper a b
        → replies_to receiver old ≡ replies_to receiver before
        → IsQuiet K.keeper receiver (done kept one) a later → Answers (Settles K.keeper access) a (done kept one) later old new
        → IsQuiet K.keeper receiver (done kept two) b last → Answers (Settles K.keeper access) b (done kept two) last before after
        → (replies_to receiver new ≡ replies_to receiver after) × AreAlike K.keeper later last }
{
    owed_replies();
    one_stamp();
}
