//! What the words of the command `serve` ask for.

ghost use Rattle.std.specs.Prelude.{◌≡◌, ◌<◌, ◌≤◌, ◌^◌, IfOk, IfSome, map, count_by, string_bytes};
ghost use Rattle.std.specs.List.{list_all};
ghost use Rattle.dns_name.specs.Name.{fold_of};
ghost use Rattle.dns_command.specs.ListeningWords.{limit_of, workers_of, is_address_word, is_limit_word, is_workers_word, is_serve_option, address_in, limit_in, workers_in, listening_of, are_single, are_serve_options, service_of, count_at, seats_of};

use crate::command_line::{Options, has_no_double, is_option, options_behind};
use dns_io::{OutOfMemory, Peer};
use dns_words::{address_of, behind, decimal_of, first_behind};
use std::alloc::Global;

/// The key of the address and port where datagrams are taken.
pub const UDP: &str = "--udp=";

/// The key of the address and port where connections are taken.
pub const TCP: &str = "--tcp=";

/// The key of a connection's limit.
const LIMIT: &str = "--limit=";

/// The key of the number of connections that are served at once.
const WORKERS: &str = "--workers=";

/// The limit where no other stands, in milliseconds.
pub const USUAL_LIMIT: u64 = 5_000;

/// How many connections are served at once where no other number stands.
const USUAL_WORKERS: u32 = 16;

/// Where the program listens: by UDP, by TCP or by both.
#[derive(Clone, Copy, Debug, PartialEq, Eq)]
pub struct Listening {
    /// The address and port where datagrams are taken.
    pub udp: Option<Peer>,
    /// The address and port where connections are taken.
    pub tcp: Option<Peer>,
    /// For how many milliseconds a connection may stay without a whole message, below 2^47; 0 for any time.
    pub limit: u64,
    /// How many connections are served at once, 1 to 64.
    pub workers: u32,
}

impl Listening {
    /// How many workers serve: one for the socket, and as many for the connections as are served at once.
    pub fn seats(&self) -> u32
        requires { self.now.workers ≤ 64 }
        ensures is { result ≡ seats_of self.now }
        ensures few { result ≤ 128 }
    {
        count_at(1, &self.udp) + count_at(self.workers, &self.tcp)
    }
}

/// So many where there is an address, else none.
fn count_at(count: u32, at: &Option<Peer>) -> u32
    requires { count ≤ 64 }
    ensures is { result ≡ count_at count at.now }
    ensures few { result ≤ 64 }
{
    match at {
        Some(_) => count,
        None => 0,
    }
}

/// What the words of `serve` ask for.
#[derive(Debug, Drop)]
pub struct Service {
    /// What they ask for as those of `events` do.
    pub options: Options,
    /// Where the program listens.
    pub listening: Listening,
}

/// What the words ask for: `serve ORIGIN`, and behind it the options of `events`, and in any order among them
/// `--udp=IP:PORT`, `--tcp=IP:PORT`, `--limit=MS` and `--workers=N`, each at most once and at least one of the first two.
/// Any other words give None.
#[tactic(auto, unfolding(crate::specs::ListeningWords::service_of))]
pub fn service_of(alloc: Global, words: &[String]) -> Result<Option<Service>, OutOfMemory>
    ensures is { IfOk result (λ service. service ≡ service_of (map string_bytes words.now)) }
    ensures folded { IfOk result (λ service. IfSome service (λ s. fold_of s.options.origin ≡ s.options.origin)) }
    ensures limit { IfOk result (λ service. IfSome service (λ s. s.listening.limit < 2 ^ 47)) }
    ensures workers { IfOk result (λ service. IfSome service (λ s. (0 < s.listening.workers) × (s.listening.workers ≤ 64))) }
    ensures some { IfOk result (λ service. IfSome service (λ s. 0 < seats_of s.listening)) }
{
    let [command, origin, words @ ..] = words else {
        return Ok(None);
    };
    if command.as_str() != "serve" {
        return Ok(None);
    }
    if !are_serve_options(words) {
        return Ok(None);
    }
    match options_behind(alloc, origin.as_str(), words)? {
        Some(options) => Ok(Some(Service {
            options,
            listening: listening_of(words),
        })),
        None => Ok(None),
    }
}

fn are_serve_options(words: &[String]) -> bool
    ensures { result ≡ are_serve_options (map string_bytes words.now) }
{
    are_each_serve_option(words) && are_single(words)
}

/// Whether each stands at most once but for the networks, and there is a place to listen at.
pub fn are_single(words: &[String]) -> bool
    ensures { result ≡ are_single (map string_bytes words.now) }
{
    has_no_double(words)
        && address_words(words, UDP) <= 1
        && address_words(words, TCP) <= 1
        && limit_words(words) <= 1
        && workers_words(words) <= 1
        && (address_in(words, UDP).is_some() || address_in(words, TCP).is_some())
}

fn are_each_serve_option(words: &[String]) -> bool
    ensures { result ≡ list_all is_serve_option (map string_bytes words.now) }
{
    for word in words {
        if !is_serve_option(word.as_str()) {
            return false;
        }
    }
    true
}

/// How many words are this key and an address and port.
fn address_words(words: &[String], key: &str) -> usize
    ensures { result ≡ count_by (is_address_word key.now) (map string_bytes words.now) }
{
    let mut count = 0;
    for word in words {
        if is_address_word(word.as_str(), key) {
            count += 1;
        }
    }
    count
}

/// How many words give a limit.
fn limit_words(words: &[String]) -> usize
    ensures { result ≡ count_by is_limit_word (map string_bytes words.now) }
{
    let mut count = 0;
    for word in words {
        if is_limit_word(word.as_str()) {
            count += 1;
        }
    }
    count
}

/// How many words give a number of connections.
fn workers_words(words: &[String]) -> usize
    ensures { result ≡ count_by is_workers_word (map string_bytes words.now) }
{
    let mut count = 0;
    for word in words {
        if is_workers_word(word.as_str()) {
            count += 1;
        }
    }
    count
}

/// Whether a word is an option of `serve`.
pub fn is_serve_option(word: &str) -> bool
    ensures { result ≡ is_serve_option word.now }
{
    is_option(word)
        || is_address_word(word, UDP)
        || is_address_word(word, TCP)
        || is_limit_word(word)
        || is_workers_word(word)
}

fn is_address_word(word: &str, key: &str) -> bool
    ensures { result ≡ is_address_word key.now word.now }
{
    match behind(word, key) {
        Some(text) => address_of(text.as_bytes()).is_some(),
        None => false,
    }
}

fn is_limit_word(word: &str) -> bool
    ensures { result ≡ is_limit_word word.now }
{
    match behind(word, LIMIT) {
        Some(text) => limit_of(text.as_bytes()).is_some(),
        None => false,
    }
}

fn is_workers_word(word: &str) -> bool
    ensures { result ≡ is_workers_word word.now }
{
    match behind(word, WORKERS) {
        Some(text) => workers_of(text.as_bytes()).is_some(),
        None => false,
    }
}

fn listening_of(words: &[String]) -> Listening
    ensures is { result ≡ listening_of (map string_bytes words.now) }
    ensures limit { result.limit < 2 ^ 47 }
    ensures workers { (0 < result.workers) × (result.workers ≤ 64) }
{
    Listening {
        udp: address_in(words, UDP),
        tcp: address_in(words, TCP),
        limit: limit_in(words).unwrap_or(USUAL_LIMIT),
        workers: workers_in(words).unwrap_or(USUAL_WORKERS),
    }
}

/// The address and port behind a key, where one stands.
pub fn address_in(words: &[String], key: &str) -> Option<Peer>
    ensures { result ≡ address_in key.now (map string_bytes words.now) }
{
    match first_behind(words, key) {
        Some(text) => address_of(text.as_bytes()),
        None => None,
    }
}

/// The limit of connections, where one stands.
pub fn limit_in(words: &[String]) -> Option<u64>
    ensures is { result ≡ limit_in (map string_bytes words.now) }
    ensures below { IfSome result (λ limit. limit < 2 ^ 47) }
{
    match first_behind(words, LIMIT) {
        Some(text) => limit_of(text.as_bytes()),
        None => None,
    }
}

/// The number of workers, where one stands.
pub fn workers_in(words: &[String]) -> Option<u32>
    ensures is { result ≡ workers_in (map string_bytes words.now) }
    ensures some { IfSome result (λ workers. 0 < workers) }
    ensures few { IfSome result (λ workers. workers ≤ 64) }
{
    match first_behind(words, WORKERS) {
        Some(text) => workers_of(text.as_bytes()),
        None => None,
    }
}

fn limit_of(text: &[u8]) -> Option<u64>
    ensures is { result ≡ limit_of text.now }
    ensures below { IfSome result (λ limit. limit < 2 ^ 47) }
{
    decimal_of(1 << 47, text)
}

#[tactic(auto, unfolding(crate::specs::ListeningWords::workers_of))]
fn workers_of(text: &[u8]) -> Option<u32>
    ensures is { result ≡ workers_of text.now }
    ensures some { IfSome result (λ workers. 0 < workers) }
    ensures few { IfSome result (λ workers. workers ≤ 64) }
{
    let number = decimal_of(65, text)?;
    if number == 0 {
        return None;
    }
    Some(number as u32)
}
