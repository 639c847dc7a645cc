//! The path of a file.

ghost use Rattle.std.specs.Prelude.{◌≡◌, string_bytes};

use std::marker::Model;

/// The path of a file, a text that contracts see as its bytes in UTF-8.
#[derive(Debug, Drop)]
pub struct PathText {
    text: String,
}

impl Model for PathText {
    ghost use Rattle.std.specs.Prelude.{List, ℕ, string_bytes};

    ghost Value = { List ℕ };

    ghost view = { λ p. string_bytes p.text };
}

impl PathText {
    /// The path that a text is; the text is moved. Takes no memory.
    pub fn new(text: String) -> PathText
        ensures { result ≡ string_bytes text }
    {
        PathText { text }
    }

    /// The text.
    pub fn as_str(&self) -> &str
        ensures { result.now ≡ self.now }
    {
        self.text.as_str()
    }

    /// The text as a string; it is moved. Takes no memory.
    pub fn into_string(self) -> String
        ensures { string_bytes result ≡ self }
    {
        let PathText { text } = self;
        text
    }
}

impl PartialEq for PathText {
    ghost use Rattle.std.specs.Cmp.{partial_equiv_from_equiv};
    ghost use Rattle.dns_io.specs.Octets.{octets_eq, octets_eq_laws};

    ghost eq = { octets_eq };

    ghost laws = { partial_equiv_from_equiv octets_eq_laws };

    fn eq(&self, other: &PathText) -> bool {
        self.text.as_str() == other.text.as_str()
    }
}

impl Eq for PathText {
    ghost use Rattle.dns_io.specs.Octets.{octets_eq_laws};

    ghost laws = { octets_eq_laws };
}
