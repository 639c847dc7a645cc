//! Words that begin with a key, as `--zone=`, and those that name a journal.

ghost use Rattle.std.specs.Prelude.{◌≡◌, map, string_bytes};
ghost use Rattle.std.specs.Option.{option_map};
ghost use Rattle.dns_words.specs.Keys.{behind, first_behind, is_path_word, is_journal_word, names_journal, path_of};

/// The key of the path of a journal.
pub const JOURNAL: &str = "--journal=";

/// What follows a key in the first word that begins with it.
pub fn first_behind<'a>(words: &'a [String], key: &str) -> Option<&'a str>
    ensures { option_map (λ path. path.now) result ≡ first_behind key.now (map string_bytes words.now) }
{
    for word in words {
        if let Some(path) = behind(word.as_str(), key) {
            return Some(path);
        }
    }
    None
}

/// What follows a key at the beginning of a word.
pub fn behind<'a>(word: &'a str, key: &str) -> Option<&'a str>
    ensures { option_map (λ rest. rest.now) result ≡ behind key.now word.now }
{
    word.strip_prefix(key)
}

/// Whether a word is this key and a path, which is not empty.
pub fn is_path_word(word: &str, key: &str) -> bool
    ensures { result ≡ is_path_word key.now word.now }
{
    match behind(word, key) {
        Some(path) => path.len() > 0,
        None => false,
    }
}

/// Whether a word is the key of a journal and its path.
pub fn is_journal_word(word: &str) -> bool
    ensures { result ≡ is_journal_word word.now }
{
    is_path_word(word, JOURNAL)
}

/// Whether these words are at most the path of a journal.
pub fn names_journal(words: &[String]) -> bool
    ensures { result ≡ names_journal (map string_bytes words.now) }
{
    match words {
        [] => true,
        [word] => is_journal_word(word.as_str()),
        _ => false,
    }
}

/// The path that a key names, as `--journal=`: what follows it in the first word that begins with it. The first two words, which are the
/// command and the origin, are passed over.
pub fn path_of<'a>(words: &'a [String], key: &str) -> Option<&'a str>
    ensures { option_map (λ path. path.now) result ≡ path_of key.now (map string_bytes words.now) }
{
    match words {
        [_, _, words @ ..] => first_behind(words, key),
        _ => None,
    }
}
