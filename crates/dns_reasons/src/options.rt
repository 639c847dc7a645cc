//! The words of a command line that begin with a key: which is the first that is wrong, and which stands a second time.

ghost use Rattle.std.specs.Prelude.{◌≡◌, ◌≤◌, IfOk, find, map, count_by, string_bytes};
ghost use Rattle.std.specs.List.{list_any};
ghost use Rattle.std.specs.Option.{option_map};
ghost use Rattle.dns_words.specs.Written.{hex_word};
ghost use Rattle.dns_reasons.specs.Options.{begins, fault_behind, first_fault, is_apart, is_apart_from, is_known, is_own, is_repeated, is_repeated_key, is_wrong, why_unknown, why_wrong};

use crate::keys::{Key, form_of, is_single, key_text};
use crate::values::{takes, value_fault};
use crate::why::Why;
use dns_io::OutOfMemory;
use dns_words::{behind, hex_word};
use std::alloc::Global;

/// The first of these words that is none of the keys with a value that its reader takes.
pub(crate) fn first_wrong<'a>(
    alloc: Global,
    keys: &[Key],
    words: &'a [String],
) -> Result<Option<&'a str>, OutOfMemory>
    ensures { IfOk result (λ found. option_map (λ word. word.now) found ≡ find (is_wrong keys.now) (map string_bytes words.now)) }
{
    for word in words {
        if is_wrong(alloc, keys, word.as_str())? {
            return Ok(Some(word.as_str()));
        }
    }
    Ok(None)
}

/// The first of these words that may stand once alone, and stands again.
pub(crate) fn first_repeated<'a>(keys: &[Key], words: &'a [String]) -> Option<&'a str>
    ensures { option_map (λ word. word.now) result
        ≡ find (is_repeated keys.now (map string_bytes words.now)) (map string_bytes words.now) }
{
    for word in words {
        if is_repeated(keys, words, word.as_str()) {
            return Some(word.as_str());
        }
    }
    None
}

/// Why a word is wrong that is none of the keys with a value that its reader takes.
pub(crate) fn why_wrong(alloc: Global, keys: &[Key], word: &str) -> Result<Why, OutOfMemory>
    ensures { IfOk result (λ why. why ≡ why_wrong keys.now word.now) }
{
    let read = read_word(alloc, word)?;
    match first_fault(keys, read.as_str()) {
        Some(why) => Ok(why),
        None => Ok(why_unknown(keys, read.as_str())),
    }
}

/// A word as the programs read it, with its address in hex digits.
fn read_word(alloc: Global, word: &str) -> Result<String, OutOfMemory>
    ensures { IfOk result (λ read. string_bytes read ≡ hex_word word.now) }
{
    hex_word(alloc, String::from_str(alloc, word)?)
}

/// Whether a word, as it was typed, is none of the keys with a value that its reader takes.
fn is_wrong(alloc: Global, keys: &[Key], word: &str) -> Result<bool, OutOfMemory>
    ensures { IfOk result (λ is. is ≡ is_wrong keys.now word.now) }
{
    let read = read_word(alloc, word)?;
    Ok(!is_known(keys, read.as_str()))
}

/// Whether a word is one of these keys with a value that its reader takes.
fn is_known(keys: &[Key], word: &str) -> bool
    ensures { result ≡ is_known keys.now word.now }
{
    for key in keys {
        if is_own(*key, word) {
            return true;
        }
    }
    false
}

/// Whether a word is this key with a value that its reader takes.
fn is_own(key: Key, word: &str) -> bool
    ensures { result ≡ is_own key word.now }
{
    match behind(word, key_text(key)) {
        Some(text) => takes(form_of(key), text.as_bytes()),
        None => false,
    }
}

/// Whether a word begins with this key.
fn begins(key: Key, word: &str) -> bool
    ensures { result ≡ begins key word.now }
{
    behind(word, key_text(key)).is_some()
}

/// Whether a word begins with one of these keys that may stand once alone, and another of the words does so too.
fn is_repeated(keys: &[Key], words: &[String], word: &str) -> bool
    ensures { result ≡ is_repeated keys.now (map string_bytes words.now) word.now }
{
    for key in keys {
        if is_repeated_key(*key, words, word) {
            return true;
        }
    }
    false
}

fn is_repeated_key(key: Key, words: &[String], word: &str) -> bool
    ensures { result ≡ is_repeated_key (map string_bytes words.now) word.now key }
{
    is_single(key) && begins(key, word) && 1 < words_with(key, words)
}

/// How many words begin with this key.
fn words_with(key: Key, words: &[String]) -> usize
    ensures { result ≡ count_by (begins key) (map string_bytes words.now) }
{
    let mut count = 0;
    for word in words {
        if begins(key, word.as_str()) {
            count += 1;
        }
    }
    count
}

/// What the value of a word lacks that begins with one of these keys.
fn first_fault(keys: &[Key], word: &str) -> Option<Why>
    ensures { result ≡ first_fault keys.now word.now }
{
    for key in keys {
        if let Some(why) = fault_behind(*key, word) {
            return Some(why);
        }
    }
    None
}

/// What the value of a word lacks that begins with this key.
fn fault_behind(key: Key, word: &str) -> Option<Why>
    ensures { result ≡ fault_behind key word.now }
{
    match behind(word, key_text(key)) {
        Some(text) => value_fault(form_of(key), text.as_bytes()),
        None => None,
    }
}

/// Why a word is wrong that begins with none of these keys.
fn why_unknown(keys: &[Key], word: &str) -> Why
    ensures { result ≡ why_unknown keys.now word.now }
{
    if word == "--help" || word == "--version" {
        return Why::Lone;
    }
    if is_apart(keys, word) {
        return Why::Apart;
    }
    Why::Unknown
}

/// Whether a word is one of these keys without the sign behind which its value stands.
fn is_apart(keys: &[Key], word: &str) -> bool
    ensures { result ≡ is_apart keys.now word.now }
{
    for key in keys {
        if is_apart_from(word, *key) {
            return true;
        }
    }
    false
}

fn is_apart_from(word: &str, key: Key) -> bool
    ensures { result ≡ is_apart_from word.now key }
{
    match behind(key_text(key), word) {
        Some(rest) => rest == "=",
        None => false,
    }
}
