//! What the definitions of a lookup say: each law is a call that does nothing and whose contract is the law.

ghost use Rattle.std.specs.Prelude.{◌≡◌, ◌≤◌, ◌↔◌, ℕ, List, [], Bool, true, false, None, Some, length};
ghost use Rattle.dns_zone_map.specs.Zone.{Contents};
ghost use Rattle.dns_zone.specs.Look.{topmost, nearest, look_of, IsTopmost, IsNearest, PassesNowhere, PassesNowhereAbove};
ghost use Rattle.dns_zone.specs.Lookup.{answered, chain_from, limited};

/// What holds of the walks along a name and of the chain of aliases.
pub fn lookups()
    // The topmost name that passes a test has the fewest labels of those that do (RFC 1034 4.3.2).
    ensures cut { (test : List (List ℕ) → Bool) (name top : List (List ℕ)) → test [] ≡ false
        → topmost test name ≡ Some top → IsTopmost test name top }
    // There is none exactly where the test fails at the name and at all names above it.
    ensures no_cut { (test : List (List ℕ) → Bool) (name : List (List ℕ)) → test [] ≡ false
        → (topmost test name ≡ None) ↔ PassesNowhere test name }
    // The closest encloser is the name above, with the most labels, that exists (RFC 4592 3.3.1).
    ensures encloser { (test : List (List ℕ) → Bool) (name near : List (List ℕ)) → nearest test name ≡ Some near
        → IsNearest test name near }
    // There is none exactly where no name above exists.
    ensures no_encloser { (test : List (List ℕ) → Bool) (name : List (List ℕ))
        → (nearest test name ≡ None) ↔ PassesNowhereAbove test name }
    // A chain ends with an alias where eight names were asked; otherwise it goes on with the alias's target, as one more
    // name that was asked (RFC 6604 2).
    ensures chain { (zone : Contents) (name : List (List ℕ)) (rtype : ℕ) (asked : List (List (List ℕ))) → length asked ≤ 8
        → chain_from zone name rtype asked ≡ answered zone (look_of zone name rtype) (limited zone rtype asked) }
{}
