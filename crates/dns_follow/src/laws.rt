//! What holds of any run of a follower: each law is a call that does nothing and whose contract is the law.

ghost use Rattle.std.specs.Prelude.{◌≡◌, ℕ, List, Some, Result, Ok, Err};
ghost use Rattle.std.specs.List.{All};
ghost use Rattle.dns_io.specs.Told.{Rose};
ghost use Rattle.dns_keeper.specs.declared.row.Row.{Row as JournalRow};
ghost use Rattle.dns_keeper.specs.declared.batch_row.BatchRow.{BatchRow as Batch};
ghost use Rattle.dns_follow.specs.declared.answer.Taken.{Taken as TakenAnswer};
ghost use Rattle.dns_follow.specs.declared.answer.Taken.TheVariants.{Stored};
ghost use Rattle.dns_follow.specs.declared.answer.FollowFault.{FollowFault as TakingFault};
ghost use Rattle.dns_follow.specs.declared.answer.FollowFault.TheVariants.{KeeperFault};
ghost use Rattle.dns_follow.specs.Following.{State, empty, want, Takes, Step, Runs};
ghost use Rattle.dns_follow.specs.Behind.{IsPrimary, IsBehind, StandAlike, StartsOn, IsNoRefusal, AreFed, IsNoWant, StoreWanted, IsByRule};
ghost use Rattle.dns_follow.specs.Followed.{Goes};
ghost use Rattle.dns_follow.specs.Seen.{SeenOf, state_of};

use dns_keeper::Keeper;

/// A follower that took payloads of a journal's feed since it had no rows, in any order and as often as one likes, and whose keeper tells
/// its rows at the end.
pub fn followed_feeds()
    // It has a front of the journal's rows, stamps aside, that is empty or ends with a batch, and no payload was refused.
    ensures behind { (origin : List (List ℕ)) (rows : List JournalRow) (batches : List Batch) (steps : List Step) (t : State) (faults : ℕ)
        (stored : List JournalRow) → IsPrimary origin rows batches → AreFed rows batches steps → Runs origin (empty faults) steps t
        → t.told.rows ≡ Some stored → IsBehind rows batches stored t.held × All (λ step. IsNoRefusal step.answer) steps }
    // What its rows stand for is what that front stands for.
    ensures zone { (origin : List (List ℕ)) (rows : List JournalRow) (batches : List Batch) (steps : List Step) (t : State) (faults : ℕ)
        (stored : List JournalRow) → IsPrimary origin rows batches → AreFed rows batches steps → Runs origin (empty faults) steps t
        → t.told.rows ≡ Some stored → StandAlike origin rows stored }
    // Where more payloads of the feed then come, the keeper counts no fault and memory does not run out, each frame that is the wanted one
    // when it comes, and marked, is answered Stored, whichever frames come between.
    ensures on { (origin : List (List ℕ)) (rows : List JournalRow) (batches : List Batch)
        (steps more : List Step) (s t : State) (faults : ℕ) (stored last : List JournalRow) → IsPrimary origin rows batches
        → AreFed rows batches steps → Runs origin (empty faults) steps s
        → s.told.rows ≡ Some stored → AreFed rows batches more → Runs origin s more t → t.told.rows ≡ Some last
        → (Rose s.told.faults t.told.faults → ⊥) → All IsNoWant more → StoreWanted (want s) more }
{}

/// The same of a follower that was opened on rows that it had stored of the same feed, or on none.
pub fn followed_on()
    // It has a front of the journal's rows, stamps aside, that is empty or ends with a batch, and no payload was refused.
    ensures behind { (origin : List (List ℕ)) (rows : List JournalRow) (batches : List Batch) (steps : List Step) (s t : State)
        (had stored : List JournalRow) → IsPrimary origin rows batches → StartsOn rows batches s had → AreFed rows batches steps
        → Runs origin s steps t → t.told.rows ≡ Some stored
        → IsBehind rows batches stored t.held × All (λ step. IsNoRefusal step.answer) steps }
    // What its rows stand for is what that front stands for.
    ensures zone { (origin : List (List ℕ)) (rows : List JournalRow) (batches : List Batch) (steps : List Step) (s t : State)
        (had stored : List JournalRow) → IsPrimary origin rows batches → StartsOn rows batches s had → AreFed rows batches steps
        → Runs origin s steps t → t.told.rows ≡ Some stored → StandAlike origin rows stored }
    // Where more payloads of the feed then come, the keeper counts no fault and memory does not run out, each frame that is the wanted one
    // when it comes, and marked, is answered Stored, whichever frames come between.
    ensures on { (origin : List (List ℕ)) (rows : List JournalRow) (batches : List Batch)
        (steps more : List Step) (r s t : State) (had stored last : List JournalRow) → IsPrimary origin rows batches
        → StartsOn rows batches r had → AreFed rows batches steps → Runs origin r steps s
        → s.told.rows ≡ Some stored → AreFed rows batches more → Runs origin s more t → t.told.rows ≡ Some last
        → (Rose s.told.faults t.told.faults → ⊥) → All IsNoWant more → StoreWanted (want s) more }
{}

/// What a follower in one state may answer to one payload, at whatever moments, where its keeper tells its rows.
pub fn one_answer()
    // There is one answer, unless the keeper fails or memory runs out: so each refusal comes wherever its cause is, and only there.
    ensures same { (origin : List (List ℕ)) (s t u : State) (payload : List ℕ) (m n : ℕ) (a b : Result TakenAnswer TakingFault)
        (rows : List JournalRow) → s.told.rows ≡ Some rows → Takes origin s payload m a t → Takes origin s payload n b u
        → IsByRule a → IsByRule b → a ≡ b }
    // The keeper can fail only where the answer is Stored else.
    ensures failed { (origin : List (List ℕ)) (s t u : State) (payload : List ℕ) (m n : ℕ) (b : Result TakenAnswer TakingFault)
        (rows : List JournalRow) → s.told.rows ≡ Some rows → Takes origin s payload m (Err KeeperFault) t → Takes origin s payload n b u
        → IsByRule b → (id : ℕ) × (b ≡ Ok (Stored id)) }
{}

/// Payloads that a follower took one after another, as `follow` tells of them, are such a run of its states as `followed_feeds` speaks of:
/// so that law holds of what `follow` did.
pub fn followed_runs<K: Keeper>()
    ensures { (s t : SeenOf K) (steps : List Step) → Goes K.keeper s steps t
        → Runs s.origin (state_of K.keeper s) steps (state_of K.keeper t) }
{}
