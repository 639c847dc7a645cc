//! What the words find that are read off the calls of a network: each law is a call that does nothing and whose contract is the law.

ghost use Rattle.std.specs.Prelude.{◌≡◌, ◌++◌, ◌∷◌, [], ℕ, List, Bool, true, ◌||◌, ◌<◌, length, max, Result, Ok, Err, take, if◌then◌else◌, nat_eq};
ghost use Rattle.dns_network.specs.Calls.{Noted, ceased, clock, looked, read, shut, watched, wrote};
ghost use Rattle.dns_network.specs.Words.{accepted_of, closed_of, crowded_by, has_ceased, has_ended, has_gone, has_worked, is_crowded, is_looked, is_stopped};
ghost use Rattle.dns_network.specs.Words.{is_unwatched, looked_by, moment_by, moment_of, now_by, now_of, owing_by, owing_of, read_by, received_of, sent_of, stopped_by};
ghost use Rattle.dns_network.specs.Words.{unwatched_by, wall_by, wall_of, was_closed, was_shut, worked_by, written_by};
ghost use Rattle.dns_network.specs.declared.call.Reading.{Reading};
ghost use Rattle.dns_network.specs.declared.call.Watch.{Watch};
ghost use Rattle.dns_network.specs.declared.refused.Refused.{Refused};
ghost use Rattle.dns_network.specs.declared.refused.Refused.TheVariants.{Gone};

/// What was read, written, accepted, closed, received and sent by calls is what was so by the first of them, and then by the others: each
/// is a front of what it is later.
pub fn parts()
    ensures read { (n : ℕ) (xs ys : List Noted) → read_by n (xs ++ ys) ≡ read_by n xs ++ read_by n ys }
    ensures written { (n : ℕ) (xs ys : List Noted) → written_by n (xs ++ ys) ≡ written_by n xs ++ written_by n ys }
    ensures accepted { (xs ys : List Noted) → accepted_of (xs ++ ys) ≡ accepted_of xs ++ accepted_of ys }
    ensures closed { (xs ys : List Noted) → closed_of (xs ++ ys) ≡ closed_of xs ++ closed_of ys }
    ensures received { (xs ys : List Noted) → received_of (xs ++ ys) ≡ received_of xs ++ received_of ys }
    ensures sent { (xs ys : List Noted) → sent_of (xs ++ ys) ≡ sent_of xs ++ sent_of ys }
{}

/// What each word finds behind one call more, from what it found before it.
pub fn steps()
    ensures looked { (xs : List Noted) (c : Noted) → is_looked (xs ++ c ∷ []) ≡ looked_by (is_looked xs) c.0 }
    ensures stopped { (xs : List Noted) (c : Noted) → is_stopped (xs ++ c ∷ []) ≡ stopped_by (is_stopped xs) c.0 }
    ensures worked { (xs : List Noted) (c : Noted) → has_worked (xs ++ c ∷ []) ≡ worked_by (has_worked xs) c.0 }
    ensures now { (xs : List Noted) (c : Noted) → now_of (xs ++ c ∷ []) ≡ now_by (now_of xs) c.0 }
    ensures wall { (xs : List Noted) (c : Noted) → wall_of (xs ++ c ∷ []) ≡ wall_by (wall_of xs) c.0 }
    ensures moment { (n : ℕ) (xs : List Noted) (c : Noted) → moment_of n (xs ++ c ∷ []) ≡ moment_by n (moment_of n xs) c.0 }
    ensures owing { (n : ℕ) (xs : List Noted) (c : Noted) → owing_of n (xs ++ c ∷ []) ≡ owing_by n (owing_of n xs) c.0 }
    ensures unwatched { (n : ℕ) (xs : List Noted) (c : Noted) → is_unwatched n (xs ++ c ∷ []) ≡ unwatched_by n (is_unwatched n xs) c.0 }
    ensures crowded { (n : ℕ) (xs : List Noted) (c : Noted) → is_crowded n (xs ++ c ∷ []) ≡ crowded_by n (is_crowded n xs) c.0 }
{}

/// The moment at which something last moved on a stream, and that since which it owes its peer something, are read of the clock that
/// `now_of` is.
pub fn one_clock()
    ensures moved { (n : ℕ) (xs : List Noted) → (moment_of n xs).now ≡ now_of xs }
    ensures owing { (n : ℕ) (xs : List Noted) → (owing_of n xs).now ≡ now_of xs }
{}

/// Whether calls show that a stream ended, is gone, was shut or was closed, or that all work ends: the first of them do, or the others.
pub fn either()
    ensures ended { (n : ℕ) (xs ys : List Noted) → has_ended n (xs ++ ys) ≡ (has_ended n xs || has_ended n ys) }
    ensures gone { (n : ℕ) (xs ys : List Noted) → has_gone n (xs ++ ys) ≡ (has_gone n xs || has_gone n ys) }
    ensures shut { (n : ℕ) (xs ys : List Noted) → was_shut n (xs ++ ys) ≡ (was_shut n xs || was_shut n ys) }
    ensures closed { (n : ℕ) (xs ys : List Noted) → was_closed n (xs ++ ys) ≡ (was_closed n xs || was_closed n ys) }
    ensures ceased { (xs ys : List Noted) → has_ceased (xs ++ ys) ≡ (has_ceased xs || has_ceased ys) }
{}

/// That the peer of a stream ended, that the stream is gone, was shut or was closed, and that all work ends, stays so, whatever is called
/// later.
pub fn for_good()
    ensures ended { (n : ℕ) (xs ys : List Noted) → has_ended n xs ≡ true → has_ended n (xs ++ ys) ≡ true }
    ensures gone { (n : ℕ) (xs ys : List Noted) → has_gone n xs ≡ true → has_gone n (xs ++ ys) ≡ true }
    ensures shut { (n : ℕ) (xs ys : List Noted) → was_shut n xs ≡ true → was_shut n (xs ++ ys) ≡ true }
    ensures closed { (n : ℕ) (xs ys : List Noted) → was_closed n xs ≡ true → was_closed n (xs ++ ys) ≡ true }
    ensures ceased { (xs ys : List Noted) → has_ceased xs ≡ true → has_ceased (xs ++ ys) ≡ true }
{}

/// What one call adds: the bytes that a read gave are those at the front of its room, those that a write took at the front of what it was
/// handed, and of another stream nothing.
pub fn own_bytes()
    ensures read { (n m : ℕ) (xs : List Noted) (room : List ℕ) (count : ℕ)
        → read_by n (xs ++ read m room (Ok count) ∷ []) ≡ read_by n xs ++ (if nat_eq m n then take count room else []) }
    ensures not_read { (n m : ℕ) (xs : List Noted) (room : List ℕ) (refused : Refused)
        → read_by n (xs ++ read m room (Err refused) ∷ []) ≡ read_by n xs }
    ensures written { (n m : ℕ) (xs : List Noted) (bytes : List ℕ) (count : ℕ)
        → written_by n (xs ++ wrote m bytes (Ok count) ∷ []) ≡ written_by n xs ++ (if nat_eq m n then take count bytes else []) }
    ensures not_written { (n m : ℕ) (xs : List Noted) (bytes : List ℕ) (refused : Refused)
        → written_by n (xs ++ wrote m bytes (Err refused) ∷ []) ≡ written_by n xs }
{}

/// What lets a caller go on: a look lets it wait, a read of the clocks is the moment from then on.
pub fn going_on()
    ensures looked { (xs : List Noted) (stopped : Bool) → is_looked (xs ++ looked stopped ∷ []) ≡ true }
    ensures stopped { (xs : List Noted) (stopped : Bool) → is_stopped (xs ++ looked stopped ∷ []) ≡ stopped }
    ensures now { (xs : List Noted) (reading : Reading) → now_of (xs ++ clock (Ok reading) ∷ []) ≡ max (now_of xs) reading.ticks }
    ensures wall { (xs : List Noted) (reading : Reading) → wall_of (xs ++ clock (Ok reading) ∷ []) ≡ reading.wall }
{}

/// What shows each cause of a close: the call that was made last.
pub fn causes()
    ensures ended { (n : ℕ) (xs : List Noted) (room : List ℕ) → 0 < length room → has_ended n (xs ++ read n room (Ok 0) ∷ []) ≡ true }
    ensures not_read { (n : ℕ) (xs : List Noted) (room : List ℕ) → has_gone n (xs ++ read n room (Err Gone) ∷ []) ≡ true }
    ensures not_written { (n : ℕ) (xs : List Noted) (bytes : List ℕ) → has_gone n (xs ++ wrote n bytes (Err Gone) ∷ []) ≡ true }
    ensures nothing_taken { (n : ℕ) (xs : List Noted) (bytes : List ℕ) → 0 < length bytes
        → has_gone n (xs ++ wrote n bytes (Ok 0) ∷ []) ≡ true }
    ensures unwatched { (n : ℕ) (xs : List Noted) (what : Watch) (refused : Refused)
        → is_unwatched n (xs ++ watched n what (Err refused) ∷ []) ≡ true }
    ensures shut { (n : ℕ) (xs : List Noted) (given : Result (Unit {0}) Refused) → was_shut n (xs ++ shut n given ∷ []) ≡ true }
    ensures ceased { (xs : List Noted) → has_ceased (xs ++ ceased ∷ []) ≡ true }
{}
