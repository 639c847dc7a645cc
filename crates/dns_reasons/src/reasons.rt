//! Why words are no command: which word is wrong, or is missing.

ghost use Rattle.std.specs.Prelude.{◌≡◌, IfOk, map, string_bytes};
ghost use Rattle.std.specs.Option.{option_map};
ghost use Rattle.dns_reasons.specs.Reasons.{absent, has, is_key, is_lone, key_reason, option_reason, place_fault, reason_at, reason_behind, reason_of, second_reason, told, update_reason, why_missing};

use crate::keys::{Key, key_text};
use crate::options::{first_repeated, first_wrong, why_wrong};
use crate::places::{Place, is_place, missing, refused};
use crate::tools::{
    Command, Tool, command_of, expected, first_place, keys_of, last_why, second_place,
};
use crate::why::Why;
use dns_io::OutOfMemory;
use dns_words::{behind, first_behind};
use std::alloc::Global;

/// The keys of the update client.
const UPDATE: [Key; 2] = [Key::Server, Key::Id];

/// Why words are no command.
#[derive(Clone, Copy, Debug)]
pub struct Reason<'a> {
    /// The word that is wrong, or the command behind which one is missing; none where there is no such word.
    pub word: Option<&'a str>,
    /// What is wrong with it, or missing behind it.
    pub why: Why,
}

/// Why these words, as they were typed, are no command of a program: the first word that is wrong, or the one behind which another is missing.
/// It is for words that the program's own reader refused.
#[tactic(auto, unfolding(crate::specs::Reasons::reason_of))]
pub fn reason_of<'a>(
    alloc: Global,
    tool: Tool,
    words: &'a [String],
) -> Result<Reason<'a>, OutOfMemory>
    ensures { IfOk result (λ reason. told reason ≡ reason_of tool (map string_bytes words.now)) }
{
    let [name, words @ ..] = words else {
        return Ok(Reason {
            word: None,
            why: expected(tool),
        });
    };
    match command_of(tool, name.as_str()) {
        Some(command) => reason_behind(alloc, command, name.as_str(), words),
        None => Ok(Reason {
            word: Some(name.as_str()),
            why: absent(tool, name.as_str()),
        }),
    }
}

/// Why a first word is no command.
fn absent(tool: Tool, word: &str) -> Why
    ensures { result ≡ absent tool word.now }
{
    if is_lone(word) {
        return Why::Lone;
    }
    expected(tool)
}

/// Whether a word asks for help, or for the version.
fn is_lone(word: &str) -> bool
    ensures { result ≡ is_lone word.now }
{
    word == "--help" || word == "--version"
}

/// Why the words behind a command are not those that it has.
#[tactic(auto, unfolding(crate::specs::Reasons::reason_behind))]
fn reason_behind<'a>(
    alloc: Global,
    command: Command,
    name: &'a str,
    words: &'a [String],
) -> Result<Reason<'a>, OutOfMemory>
    ensures { IfOk result (λ reason. told reason ≡ reason_behind command name.now (map string_bytes words.now)) }
{
    let place = first_place(command);
    let [word, words @ ..] = words else {
        return Ok(Reason {
            word: Some(name),
            why: missing(place),
        });
    };
    match place_fault(alloc, place, name, word.as_str())? {
        Some(reason) => Ok(reason),
        None => second_reason(alloc, command, name, words),
    }
}

/// The same of the words behind the first of these.
fn second_reason<'a>(
    alloc: Global,
    command: Command,
    name: &'a str,
    words: &'a [String],
) -> Result<Reason<'a>, OutOfMemory>
    ensures { IfOk result (λ reason. told reason ≡ second_reason command name.now (map string_bytes words.now)) }
{
    match second_place(command) {
        Some(place) => reason_at(alloc, command, place, name, words),
        None => option_reason(alloc, command, name, words),
    }
}

/// The same, where a place is before the keys.
#[tactic(auto, unfolding(crate::specs::Reasons::reason_at))]
fn reason_at<'a>(
    alloc: Global,
    command: Command,
    place: Place,
    name: &'a str,
    words: &'a [String],
) -> Result<Reason<'a>, OutOfMemory>
    ensures { IfOk result (λ reason. told reason ≡ reason_at command place name.now (map string_bytes words.now)) }
{
    let [word, words @ ..] = words else {
        return Ok(Reason {
            word: Some(name),
            why: missing(place),
        });
    };
    match place_fault(alloc, place, name, word.as_str())? {
        Some(reason) => Ok(reason),
        None => option_reason(alloc, command, name, words),
    }
}

/// Why a word may not stand at a place behind a command: it is none that may, or a key, so that the one that may is missing.
fn place_fault<'a>(
    alloc: Global,
    place: Place,
    name: &'a str,
    word: &'a str,
) -> Result<Option<Reason<'a>>, OutOfMemory>
    ensures { IfOk result (λ reason. option_map told reason ≡ place_fault place name.now word.now) }
{
    if is_lone(word) {
        return Ok(Some(Reason {
            word: Some(word),
            why: Why::Lone,
        }));
    }
    if is_key(word) {
        return Ok(Some(Reason {
            word: Some(name),
            why: missing(place),
        }));
    }
    if is_place(alloc, place, word)? {
        return Ok(None);
    }
    Ok(Some(Reason {
        word: Some(word),
        why: refused(place),
    }))
}

/// Whether a word begins as keys do.
fn is_key(word: &str) -> bool
    ensures { result ≡ is_key word.now }
{
    behind(word, "--").is_some()
}

/// Why words with keys are not those of a command.
fn option_reason<'a>(
    alloc: Global,
    command: Command,
    name: &'a str,
    words: &'a [String],
) -> Result<Reason<'a>, OutOfMemory>
    ensures { IfOk result (λ reason. told reason ≡ option_reason command name.now (map string_bytes words.now)) }
{
    match key_reason(alloc, keys_of(command), words)? {
        Some(reason) => Ok(reason),
        None => Ok(Reason {
            word: Some(name),
            why: last_why(command),
        }),
    }
}

/// The first of these words that is none of the keys with its value, or stands again.
fn key_reason<'a>(
    alloc: Global,
    keys: &[Key],
    words: &'a [String],
) -> Result<Option<Reason<'a>>, OutOfMemory>
    ensures { IfOk result (λ reason. option_map told reason ≡ key_reason keys.now (map string_bytes words.now)) }
{
    if let Some(word) = first_wrong(alloc, keys, words)? {
        let why = why_wrong(alloc, keys, word)?;
        return Ok(Some(Reason {
            word: Some(word),
            why,
        }));
    }
    match first_repeated(keys, words) {
        Some(word) => Ok(Some(Reason {
            word: Some(word),
            why: Why::Again,
        })),
        None => Ok(None),
    }
}

/// Why these words, as they were typed, are not those of the update client. It is for words that its own reader refused.
pub fn update_reason<'a>(alloc: Global, words: &'a [String]) -> Result<Reason<'a>, OutOfMemory>
    ensures { IfOk result (λ reason. told reason ≡ update_reason (map string_bytes words.now)) }
{
    match key_reason(alloc, &UPDATE, words)? {
        Some(reason) => Ok(reason),
        None => Ok(Reason {
            word: None,
            why: why_missing(words),
        }),
    }
}

/// Which word of the update client is missing, or that they stand in another order.
fn why_missing(words: &[String]) -> Why
    ensures { result ≡ why_missing (map string_bytes words.now) }
{
    if !has(words, key_text(Key::Server)) {
        return Why::NoServer;
    }
    if !has(words, key_text(Key::Id)) {
        return Why::NoId;
    }
    Why::Order
}

/// Whether one of these words begins with a key.
fn has(words: &[String], key: &str) -> bool
    ensures { result ≡ has (map string_bytes words.now) key.now }
{
    first_behind(words, key).is_some()
}
