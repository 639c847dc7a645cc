//! What the counts mean: each law is a call that does nothing and whose contract is the law.

ghost use Rattle.std.specs.Prelude.{◌≡◌, ◌+◌, ◌-◌, ◌^◌, ◌<◌, ◌≤◌, ℕ, List, map, IsTrue};
ghost use Rattle.std.specs.List.{list_all};
ghost use Rattle.dns_counts.specs.declared.asked.Asked.{Asked as Message};
ghost use Rattle.dns_counts.specs.declared.asked.Replied.{Replied as Reply};
ghost use Rattle.dns_counts.specs.Counting.{raised, grown};
ghost use Rattle.dns_counts.specs.Counters.{counters, each, has_label, recorded};
ghost use Rattle.dns_counts.specs.Totals.{all_differ, recorded_all, total_growth};

/// How a count grows.
pub fn raised_counts()
    // By exactly the number, where the sum is below 2^64.
    ensures exact { (count more : ℕ) → count + more < 2 ^ 64 → raised count more ≡ count + more }
    // Otherwise it stops at the greatest value.
    ensures greatest { (count more : ℕ) → count < 2 ^ 64 → 2 ^ 64 ≤ count + more → raised count more ≡ 2 ^ 64 - 1 }
{}

/// Replies one after the other.
pub fn recorded_replies()
    // Each count is raised by what the replies together raise it by.
    ensures total { (replies : List (Message × Reply)) (before : List (List ℕ))
        → recorded_all replies before ≡ each (λ counter counts. grown counts (total_growth counter replies)) counters before }
    // Their order does not matter.
    ensures order { (a c : Message) (b d : Reply) (before : List (List ℕ))
        → recorded c d (recorded a b before) ≡ recorded a b (recorded c d before) }
{}

/// The table of counters.
#[tactic(auto, unfolding(crate::specs::Counters::counters))]
pub fn distinct_labels()
    // No two counters have one name.
    ensures names { IsTrue (all_differ (map (λ counter. counter.name) counters)) }
    // No label stands twice in a counter.
    ensures labels { IsTrue (list_all (λ counter. all_differ counter.labels) counters) }
{}

/// Labels that are found.
#[tactic(auto, unfolding(crate::specs::Counters::counters))]
pub fn found_labels()
    // Each label of each counter is found under the counter's name; that of a counter without labels is the empty one.
    ensures { IsTrue (list_all (λ counter. list_all (λ label. has_label counter.name label) counter.labels) counters) }
{}
