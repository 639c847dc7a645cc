//! What is told of an object's content.

ghost use Rattle.std.specs.Prelude.{◌++◌, ℕ, List, Option};
ghost use Rattle.dns_io.specs.Told.{Keeps, Takes, Grows, GrowsByPrefix};

/// How what is told goes on over several calls. A caller that wants a law calls this.
pub fn told_contents()
    ensures kept { (a b c : Option (List ℕ)) → Keeps a b → Keeps b c → Keeps a c }
    ensures takes { (a b c : Option (List ℕ)) (xs ys : List ℕ) → Takes a b xs → Takes b c ys → Takes a c (xs ++ ys) }
    ensures kept_takes { (a b c : Option (List ℕ)) (xs : List ℕ) → Keeps a b → Takes b c xs → Takes a c xs }
    ensures takes_kept { (a b c : Option (List ℕ)) (xs : List ℕ) → Takes a b xs → Keeps b c → Takes a c xs }
    ensures grows { (a b c : Option (List ℕ)) (xs ys : List ℕ) → Grows a b xs → Grows b c ys → Grows a c (xs ++ ys) }
    ensures kept_grows { (a b c : Option (List ℕ)) (xs : List ℕ) → Keeps a b → Grows b c xs → Grows a c xs }
    ensures grows_kept { (a b c : Option (List ℕ)) (xs : List ℕ) → Grows a b xs → Keeps b c → Grows a c xs }
    ensures grows_by_prefix { (a b c : Option (List ℕ)) (xs ys rest : List ℕ) → Grows a b xs → GrowsByPrefix b c ys rest → GrowsByPrefix a c (xs ++ ys) rest }
{}
