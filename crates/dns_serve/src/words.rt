//! What the words of the command `serve` ask for.

ghost use Rattle.std.specs.Prelude.{◌≡◌, ◌<◌, ◌≤◌, ◌^◌, IfOk, IfSome, map, count_by, string_bytes, is_some, not, true, drop, List, ℕ};
ghost use Rattle.std.specs.List.{list_all};
ghost use Rattle.dns_name.specs.Name.{fold_of};
ghost use Rattle.dns_command.specs.ListeningWords.{service_of as library_service_of};
ghost use Rattle.dns_crowd_server.specs.Hubs.{seats_of};
ghost use Rattle.dns_serve.specs.Words.{are_own_options, connections_in, connections_of, is_command, is_connections_word, is_own_option, places_of, serving_of};

use dns_command::command_line::{Options, options_behind, options_of};
use dns_command::listening_words::{
    TCP, UDP, USUAL_LIMIT, address_in, are_single, is_serve_option, limit_in, workers_in,
};
use dns_crowd_server::Places;
use dns_io::OutOfMemory;
use dns_words::{behind, decimal_of, first_behind};
use std::alloc::Global;

/// The key of the number of connections that may be open at once.
const CONNECTIONS: &str = "--connections=";

/// How many connections may be open at once where no other number stands.
const USUAL_CONNECTIONS: u32 = 4_096;

/// How many workers serve connections where no other number stands.
const USUAL_WORKERS: u32 = 1;

/// What the words of `serve` ask for.
#[derive(Debug, Drop)]
pub struct Service {
    /// What they ask for as those of `events` do.
    pub options: Options,
    /// Where the program listens.
    pub places: Places,
}

/// What the words ask for: `serve ORIGIN`, and behind it the options of `events`, and in any order among them `--udp=IP:PORT`,
/// `--tcp=IP:PORT`, `--limit=MS`, `--workers=N` and `--connections=N`, each at most once and at least one of the first two. Any other words
/// give None.
#[tactic(auto, unfolding(crate::specs::Words::serving_of))]
pub fn service_of(alloc: Global, words: &[String]) -> Result<Option<Service>, OutOfMemory>
    ensures is { IfOk result (λ service. service ≡ serving_of (map string_bytes words.now)) }
    ensures folded { IfOk result (λ service. IfSome service (λ s. fold_of s.options.origin ≡ s.options.origin)) }
    ensures limit { IfOk result (λ service. IfSome service (λ s. s.places.limit < 2 ^ 47)) }
    ensures seats { IfOk result (λ service. IfSome service (λ s. (0 < seats_of s.places) × (seats_of s.places ≤ 1024))) }
{
    let [command, origin, words @ ..] = words else {
        return Ok(None);
    };
    if command.as_str() != "serve" {
        return Ok(None);
    }
    if !are_own_options(words) {
        return Ok(None);
    }
    match options_behind(alloc, origin.as_str(), words)? {
        Some(options) => Ok(Some(Service {
            options,
            places: places_of(words),
        })),
        None => Ok(None),
    }
}

/// Whether the words are a command: those of `serve`, or those of `events` or `load`.
pub fn is_command(alloc: Global, words: &[String]) -> Result<bool, OutOfMemory>
    ensures { IfOk result (λ is. is ≡ is_command (map string_bytes words.now)) }
{
    if service_of(alloc, words)?.is_some() {
        return Ok(true);
    }
    Ok(options_of(alloc, words)?.is_some())
}

/// Words without a number of connections are a command here exactly where they are one of the library's.
pub fn library_words()
    ensures { (words : List (List ℕ)) → list_all (λ word. not (is_connections_word word)) (drop 2 words) ≡ true
        → is_some (serving_of words) ≡ is_some (library_service_of words) }
{}

fn are_own_options(words: &[String]) -> bool
    ensures { result ≡ are_own_options (map string_bytes words.now) }
{
    are_each_own_option(words) && are_single(words) && connections_words(words) <= 1
}

fn are_each_own_option(words: &[String]) -> bool
    ensures { result ≡ list_all is_own_option (map string_bytes words.now) }
{
    for word in words {
        if !is_own_option(word.as_str()) {
            return false;
        }
    }
    true
}

/// How many words give a number of connections.
fn connections_words(words: &[String]) -> usize
    ensures { result ≡ count_by is_connections_word (map string_bytes words.now) }
{
    let mut count = 0;
    for word in words {
        if is_connections_word(word.as_str()) {
            count += 1;
        }
    }
    count
}

fn is_own_option(word: &str) -> bool
    ensures { result ≡ is_own_option word.now }
{
    is_serve_option(word) || is_connections_word(word)
}

fn is_connections_word(word: &str) -> bool
    ensures { result ≡ is_connections_word word.now }
{
    match behind(word, CONNECTIONS) {
        Some(text) => connections_of(text.as_bytes()).is_some(),
        None => false,
    }
}

fn places_of(words: &[String]) -> Places
    ensures is { result ≡ places_of (map string_bytes words.now) }
    ensures limit { result.limit < 2 ^ 47 }
    ensures workers { (0 < result.workers) × (result.workers ≤ 64) }
{
    Places {
        udp: address_in(words, UDP),
        tcp: address_in(words, TCP),
        limit: limit_in(words).unwrap_or(USUAL_LIMIT),
        workers: workers_in(words).unwrap_or(USUAL_WORKERS),
        connections: connections_in(words).unwrap_or(USUAL_CONNECTIONS),
    }
}

fn connections_in(words: &[String]) -> Option<u32>
    ensures is { result ≡ connections_in (map string_bytes words.now) }
{
    match first_behind(words, CONNECTIONS) {
        Some(text) => connections_of(text.as_bytes()),
        None => None,
    }
}

#[tactic(auto, unfolding(crate::specs::Words::connections_of))]
fn connections_of(text: &[u8]) -> Option<u32>
    ensures is { result ≡ connections_of text.now }
{
    let number = decimal_of(65_537, text)?;
    if number == 0 {
        return None;
    }
    Some(number as u32)
}
