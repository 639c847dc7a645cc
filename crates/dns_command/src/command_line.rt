//! What the words of the command line ask for. The program's name is not among them.

ghost use Rattle.std.specs.Prelude.{◌≡◌, ◌≤◌, ◌++◌, ◌∷◌, [], IfOk, IfSome, OnOk, map, length, drop, count_by, string_bytes};
ghost use Rattle.std.specs.List.{list_all, list_any};
ghost use Rattle.std.specs.Option.{option_map, unwrap_or};
ghost use Rattle.dns_name.specs.Name.{fold_of};
ghost use Rattle.dns_name.specs.NameText.{name_of};
ghost use Rattle.dns_words.specs.Keys.{is_path_word};
ghost use Rattle.dns_command.specs.CommandLine.{path_of, is_update_word, net_behind, nets_behind, payload_of, is_payload_word, payload_in, is_option, has_no_double, are_options, options_for, options_behind, drawn_by, load_options, options_of, access_of};

use crate::network_text::network_of;
use dns_book::{AccessControl, IpNet, MAX_PAYLOAD};
use dns_generator::origin_name;
use dns_io::OutOfMemory;
use dns_name::name_laws::folded_names;
use dns_name::{Name, ProtoError};
use dns_words::{behind, decimal_of, first_behind, is_path_word};
use std::alloc::Global;
use std::marker::Model;

/// The key of the zone text's path.
pub const ZONE: &str = "--zone=";

/// The key of the journal's path.
pub const JOURNAL: &str = "--journal=";

/// The word by which updates are let in.
const UPDATE: &str = "--update";

/// The key of a network whose sources are shut out.
const DENY: &str = "--deny=";

/// The key of a network whose sources are let in.
const ALLOW: &str = "--allow=";

/// The key of the greatest datagram.
const PAYLOAD: &str = "--payload=";

/// The least number that may stand there: what every receiver takes (RFC 1035 4.2.1).
const MIN_PAYLOAD: u64 = 512;

/// Networks, in the order of their words.
#[derive(Debug, Drop)]
pub struct Networks {
    nets: Vec<IpNet>,
}

impl Model for Networks {
    ghost use Rattle.std.specs.Prelude.{List};
    ghost use Rattle.dns_book.specs.declared.access.IpNet.{IpNet};

    ghost Value = { List IpNet };

    ghost view = { λ n. n.nets.items };
}

impl Networks {
    /// No network. Takes no memory.
    fn new(alloc: Global) -> Networks
        ensures { result ≡ [] }
    {
        Networks {
            nets: Vec::new(alloc),
        }
    }

    /// Adds one at the end.
    fn push(&mut self, net: IpNet) -> Result<(), OutOfMemory>
        ensures { OnOk result (self.new ≡ self.old ++ net ∷ []) }
    {
        self.nets.push(net)?;
        Ok(())
    }

    /// The networks. Takes no memory.
    fn into_vec(self) -> Vec<IpNet>
        ensures { result.items ≡ self }
    {
        self.nets
    }
}

/// How many bytes a datagram has at most that is sent: 512 to 65,507.
#[derive(Debug, Drop)]
pub struct Payload {
    most: u16,
}

impl Model for Payload {
    ghost use Rattle.std.specs.Prelude.{ℕ};
    ghost use Rattle.dns_book.specs.Access.{IsPayload};

    ghost Value = { ℕ };

    ghost view = { λ p. p.most };

    ghost invariant = { λ p. IsPayload p.most };
}

impl Payload {
    /// The number that was found, and what IPv4 carries where none was.
    fn found_or_usual(found: Option<u16>) -> Payload
        requires least { IfSome found (λ most. 512 ≤ most) }
        requires most { IfSome found (λ most. most ≤ 65507) }
        ensures { result ≡ unwrap_or found 65507 }
    {
        match found {
            Some(most) => Payload { most },
            None => Payload { most: MAX_PAYLOAD },
        }
    }

    /// The number.
    fn most(&self) -> u16
        ensures is { result ≡ self.now }
        ensures least { 512 ≤ result }
        ensures most { result ≤ 65507 }
    {
        self.most
    }
}

/// What the words of a command ask for, where it listens aside.
#[derive(Debug, Drop)]
pub struct Options {
    /// The zone's origin, folded.
    pub origin: Name,
    /// Whether updates are let in (RFC 2136 3.3).
    pub allow_update: bool,
    /// The networks whose sources are shut out.
    pub denied: Networks,
    /// The networks whose sources are let in.
    pub allowed: Networks,
    /// The greatest datagram.
    pub payload: Payload,
    /// The list of events that is drawn, where no event text is read.
    pub drawn: Option<Drawn>,
}

/// Who is let in, and how large a datagram may go out. Takes no memory.
pub fn access_of(options: Options) -> AccessControl
    ensures { result ≡ access_of options }
{
    let Options {
        origin: _,
        allow_update: _,
        denied,
        allowed,
        payload,
        drawn: _,
    } = options;
    let access = AccessControl::from_networks(denied.into_vec(), allowed.into_vec());
    access.with_payload(payload.most())
}

/// A list of events that is drawn.
#[derive(Clone, Copy, Debug, PartialEq, Eq)]
pub struct Drawn {
    /// What it is drawn from.
    pub seed: u64,
    /// How many messages it has, from 1 to 100,000.
    pub count: u32,
}

/// What the words ask for: `load SEED COUNT`, as [`load_options`] says; or `events ORIGIN`, and behind it options in any
/// order: at most one `--update`, at most one `--zone=PATH` and one `--journal=PATH`, where PATH is not empty, at most one
/// `--payload=N`, where N is 512 to 65507, and any number of `--deny=IP/PREFIX` and `--allow=IP/PREFIX`. ORIGIN is a name's
/// text (RFC 1035 5.1), whatever word stands there. Any other words are no command, and give None.
#[tactic(auto, unfolding(crate::specs::CommandLine::options_of))]
pub fn options_of(alloc: Global, words: &[String]) -> Result<Option<Options>, OutOfMemory>
    ensures is { IfOk result (λ options. options ≡ options_of (map string_bytes words.now)) }
    ensures folded { IfOk result (λ options. IfSome options (λ o. fold_of o.origin ≡ o.origin)) }
    ensures few { IfOk result (λ options. IfSome options (λ o. IfSome o.drawn (λ drawn. drawn.count ≤ 100000))) }
{
    let [command, origin, words @ ..] = words else {
        return Ok(None);
    };
    if command.as_str() == "load" {
        return load_options(alloc, origin.as_str(), words);
    }
    if command.as_str() != "events" {
        return Ok(None);
    }
    if !are_options(words) {
        return Ok(None);
    }
    options_behind(alloc, origin.as_str(), words)
}

/// What an origin and the options behind it ask for. None where the origin is no name's text.
pub fn options_behind(
    alloc: Global,
    origin: &str,
    words: &[String],
) -> Result<Option<Options>, OutOfMemory>
    ensures is { IfOk result (λ options. options ≡ options_behind origin.now (map string_bytes words.now)) }
    ensures folded { IfOk result (λ options. IfSome options (λ o. fold_of o.origin ≡ o.origin)) }
    ensures few { IfOk result (λ options. IfSome options (λ o. IfSome o.drawn (λ drawn. drawn.count ≤ 100000))) }
{
    let denied = nets_behind(alloc, words, DENY)?;
    let allowed = nets_behind(alloc, words, ALLOW)?;
    let payload = Payload::found_or_usual(payload_in(words));
    options_for(alloc, origin, has_update(words), denied, allowed, payload)
}

/// What the words of `load` ask for: a seed below 2^64, and behind it a count of messages from 1 to 100,000, both in decimal. The
/// zone is example.com, and updates are let in, from everybody.
fn load_options(alloc: Global, seed: &str, words: &[String]) -> Result<Option<Options>, OutOfMemory>
    ensures is { IfOk result (λ options. options ≡ load_options seed.now (map string_bytes words.now)) }
    ensures folded { IfOk result (λ options. IfSome options (λ o. fold_of o.origin ≡ o.origin)) }
    ensures few { IfOk result (λ options. IfSome options (λ o. IfSome o.drawn (λ drawn. drawn.count ≤ 100000))) }
{
    let [count] = words else {
        return Ok(None);
    };
    match drawn_by(seed, count.as_str()) {
        None => Ok(None),
        Some(drawn) => Ok(Some(Options {
            origin: origin_name(alloc)?,
            allow_update: true,
            denied: Networks::new(alloc),
            allowed: Networks::new(alloc),
            payload: Payload::found_or_usual(None),
            drawn: Some(drawn),
        })),
    }
}

/// A seed and a count of messages.
fn drawn_by(seed: &str, count: &str) -> Option<Drawn>
    ensures is { result ≡ drawn_by seed.now count.now }
    ensures few { IfSome result (λ drawn. drawn.count ≤ 100000) }
{
    let seed = decimal_of(u64::MAX as u128 + 1, seed.as_bytes())?;
    let count = decimal_of(100_001, count.as_bytes())?;
    if count == 0 {
        return None;
    }
    Some(Drawn {
        seed,
        count: count as u32,
    })
}

/// The path that a key names, as `--zone=`: what follows it in the first word that begins with it. The first two words,
/// which are the command and the origin, are passed over.
pub fn path_of<'a>(words: &'a [String], key: &str) -> Option<&'a str>
    ensures { option_map (λ path. path.now) result ≡ path_of key.now (map string_bytes words.now) }
{
    match words {
        [_, _, words @ ..] => first_behind(words, key),
        _ => None,
    }
}

fn options_for(
    alloc: Global,
    origin: &str,
    allow_update: bool,
    denied: Networks,
    allowed: Networks,
    payload: Payload,
) -> Result<Option<Options>, OutOfMemory>
    ensures is { IfOk result (λ options. options ≡ options_for (name_of origin.now) allow_update denied allowed payload) }
    ensures folded { IfOk result (λ options. IfSome options (λ o. fold_of o.origin ≡ o.origin)) }
    ensures few { IfOk result (λ options. IfSome options (λ o. IfSome o.drawn (λ drawn. drawn.count ≤ 100000))) }
{
    folded_names();
    match Name::parse(alloc, origin) {
        Ok(name) => {
            let origin = name.folded(alloc)?;
            Ok(Some(Options {
                origin,
                allow_update,
                denied,
                allowed,
                payload,
                drawn: None,
            }))
        }
        Err(ProtoError::OutOfMemory) => Err(OutOfMemory),
        Err(_) => Ok(None),
    }
}

fn are_options(words: &[String]) -> bool
    ensures { result ≡ are_options (map string_bytes words.now) }
{
    are_each_option(words) && has_no_double(words)
}

/// Whether `--update`, `--zone=`, `--journal=` and `--payload=` stand at most once each.
pub fn has_no_double(words: &[String]) -> bool
    ensures { result ≡ has_no_double (map string_bytes words.now) }
{
    update_words(words) <= 1
        && path_words(words, ZONE) <= 1
        && path_words(words, JOURNAL) <= 1
        && payload_words(words) <= 1
}

fn are_each_option(words: &[String]) -> bool
    ensures { result ≡ list_all is_option (map string_bytes words.now) }
{
    for word in words {
        if !is_option(word.as_str()) {
            return false;
        }
    }
    true
}

/// How many words let updates in.
fn update_words(words: &[String]) -> usize
    ensures { result ≡ count_by is_update_word (map string_bytes words.now) }
{
    let mut count = 0;
    for word in words {
        if is_update_word(word.as_str()) {
            count += 1;
        }
    }
    count
}

fn has_update(words: &[String]) -> bool
    ensures { result ≡ list_any is_update_word (map string_bytes words.now) }
{
    for word in words {
        if is_update_word(word.as_str()) {
            return true;
        }
    }
    false
}

/// How many words are this key and a path.
fn path_words(words: &[String], key: &str) -> usize
    ensures { result ≡ count_by (is_path_word key.now) (map string_bytes words.now) }
{
    let mut count = 0;
    for word in words {
        if is_path_word(word.as_str(), key) {
            count += 1;
        }
    }
    count
}

/// How many words give the greatest datagram.
fn payload_words(words: &[String]) -> usize
    ensures { result ≡ count_by is_payload_word (map string_bytes words.now) }
{
    let mut count = 0;
    for word in words {
        if is_payload_word(word.as_str()) {
            count += 1;
        }
    }
    count
}

/// Whether a word is an option of `events`, and so of `serve`.
pub fn is_option(word: &str) -> bool
    ensures { result ≡ is_option word.now }
{
    is_update_word(word)
        || is_path_word(word, ZONE)
        || is_path_word(word, JOURNAL)
        || net_behind(word, DENY).is_some()
        || net_behind(word, ALLOW).is_some()
        || is_payload_word(word)
}

fn is_update_word(word: &str) -> bool
    ensures { result ≡ is_update_word word.now }
{
    word == UPDATE
}

fn is_payload_word(word: &str) -> bool
    ensures { result ≡ is_payload_word word.now }
{
    match behind(word, PAYLOAD) {
        Some(text) => payload_of(text.as_bytes()).is_some(),
        None => false,
    }
}

/// The greatest datagram, where a word gives it.
fn payload_in(words: &[String]) -> Option<u16>
    ensures is { result ≡ payload_in (map string_bytes words.now) }
    ensures least { IfSome result (λ most. 512 ≤ most) }
    ensures most { IfSome result (λ most. most ≤ 65507) }
{
    match first_behind(words, PAYLOAD) {
        Some(text) => payload_of(text.as_bytes()),
        None => None,
    }
}

#[tactic(auto, unfolding(crate::specs::CommandLine::payload_of))]
fn payload_of(text: &[u8]) -> Option<u16>
    ensures is { result ≡ payload_of text.now }
    ensures least { IfSome result (λ most. 512 ≤ most) }
    ensures most { IfSome result (λ most. most ≤ 65507) }
{
    let most = decimal_of(u128::from(MAX_PAYLOAD) + 1, text)?;
    if most < MIN_PAYLOAD {
        return None;
    }
    Some(most as u16)
}

fn nets_behind(alloc: Global, words: &[String], key: &str) -> Result<Networks, OutOfMemory>
    ensures { IfOk result (λ nets. nets ≡ nets_behind key.now (map string_bytes words.now)) }
{
    let mut nets = Networks::new(alloc);
    for word in words {
        let Some(net) = net_behind(word.as_str(), key) else {
            continue;
        };
        nets.push(net)?;
    }
    Ok(nets)
}

fn net_behind(word: &str, key: &str) -> Option<IpNet>
    ensures { result ≡ net_behind key.now word.now }
{
    match behind(word, key) {
        Some(text) => network_of(text.as_bytes()),
        None => None,
    }
}
