//! What holds of the names of a zone, whatever its records. Each law is the contract of a function that does nothing: a
//! caller that wants one calls it.

ghost use Rattle.std.specs.Prelude.{◌≡◌, ◌∷◌, ◌↔◌, ℕ, List, true};
ghost use Rattle.dns_name.specs.Name.{IsAtOrBelow, is_at_or_below};
ghost use Rattle.dns_wire.specs.declared.record.Record.{Record};
ghost use Rattle.dns_zone_map.specs.Keys.{key_of, BeginsWith};
ghost use Rattle.dns_zone_map.specs.Existence.{owns_type, exists};

/// Which names exist (RFC 4592 2.2.2).
pub fn existing_names()
    // The name above one that exists exists.
    ensures above { (records : List Record) (label : List ℕ) (name : List (List ℕ))
        → exists records (label ∷ name) ≡ true → exists records name ≡ true }
    // A name that owns a record exists.
    ensures owners { (records : List Record) (name : List (List ℕ)) (rtype : ℕ)
        → owns_type records name rtype ≡ true → exists records name ≡ true }
{}

/// The keys of names.
pub fn key_order()
    // A name of a zone is at or below another of it exactly where its key begins with the other's.
    ensures { (origin name other : List (List ℕ)) → is_at_or_below name origin ≡ true → is_at_or_below other origin ≡ true
        → IsAtOrBelow name other ↔ BeginsWith (key_of origin name) (key_of origin other) }
{}
