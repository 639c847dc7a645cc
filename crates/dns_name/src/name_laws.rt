//! What holds of names, whatever they are. Each law is the contract of a function that does nothing: a caller that
//! wants one calls it.

ghost use Rattle.std.specs.Prelude.{◌≡◌, ◌+◌, ◌↔◌, ℕ, List, ◌++◌, length, IsTrue};
ghost use Rattle.dns_name.specs.Name.{IsName, name_len, name_bytes, fold_of, SameName, IsAtOrBelow, IsStrictlyBelow, is_same_name, is_at_or_below, is_strictly_below};
ghost use Rattle.dns_name.specs.NameInMessage.{StandsAt};
ghost use Rattle.dns_name.specs.NameEquality.{name_eq};

/// What holds of the names in messages (RFC 1035 4.1.4).
pub fn standing_names()
    // At most one name stands at a place.
    ensures one { (m : List ℕ) (i j k : ℕ) (labels others : List (List ℕ)) → StandsAt m i labels j → StandsAt m i others k
        → (labels ≡ others) × (j ≡ k) }
    // A name that was written stands where it was written, whatever is before it and after it.
    ensures written { (before after : List ℕ) (labels : List (List ℕ)) → IsName labels
        → StandsAt (before ++ (name_bytes labels ++ after)) (length before) labels (length before + name_len labels) }
{}

/// What `==` says of names.
pub fn equal_names()
    ensures { (a b : List (List ℕ)) → IsTrue (name_eq a b) ↔ (a ≡ b) }
{}

/// What the tests of names say: each is true exactly where its relation holds (RFC 1035 2.3.3).
pub fn tested_names()
    // Names are equal but for the case of ASCII letters.
    ensures same { (name other : List (List ℕ)) → IsTrue (is_same_name name other) ↔ SameName name other }
    // A name is the other or stands below it.
    ensures below { (name other : List (List ℕ)) → IsTrue (is_at_or_below name other) ↔ IsAtOrBelow name other }
    // A name stands below the other, which has fewer labels.
    ensures strictly { (name other : List (List ℕ)) → IsTrue (is_strictly_below name other) ↔ IsStrictlyBelow name other }
{}

/// What holds of names in small letters: there is nothing left to fold.
pub fn folded_names()
    ensures { (name : List (List ℕ)) → fold_of (fold_of name) ≡ fold_of name }
{}
