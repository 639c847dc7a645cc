//! What the words of the command line ask for. The program's name is not among them.

ghost use Rattle.std.specs.Prelude.{◌≡◌, IfOk, map, string_bytes};
ghost use Rattle.dns_audit.specs.Commands.{is_into_word, names_both, origin_of, length_of, zone_by, list_by, compact_by, command_of};

use dns_io::OutOfMemory;
use dns_name::{Name, ProtoError};
use dns_words::{decimal_of, is_journal_word, is_path_word, names_journal};
use std::alloc::Global;

/// The key of the path of the journal that is written.
pub const INTO: &str = "--into=";

/// What is asked of a journal.
#[derive(Debug, Drop)]
pub enum Command {
    /// To print the zone of this origin at this length.
    PrintZone {
        /// The zone's origin, folded.
        origin: Name,
        /// How many rows make the zone.
        length: u64,
    },
    /// To list the batches of the zone's journal.
    ListBatches {
        /// The zone's origin, folded.
        origin: Name,
    },
    /// To write another journal of one batch.
    Compact {
        /// The zone's origin, folded.
        origin: Name,
    },
}

/// What the words ask for: `zone ORIGIN LENGTH`, `list ORIGIN` or `compact ORIGIN`, each with at most one `--journal=PATH` behind it, and
/// `compact` then with at most one `--into=PATH`. ORIGIN is a name's text (RFC 1035 5.1), LENGTH a decimal number below 2^64 with no zero
/// before another digit, and PATH is not empty. Any other words are no command, and give None.
#[tactic(auto, unfolding(crate::specs::Commands::command_of))]
pub fn command_of(alloc: Global, words: &[String]) -> Result<Option<Command>, OutOfMemory>
    ensures { IfOk result (λ command. command ≡ command_of (map string_bytes words.now)) }
{
    let [word, origin, words @ ..] = words else {
        return Ok(None);
    };
    if word.as_str() == "zone" {
        return zone_by(alloc, origin.as_str(), words);
    }
    if word.as_str() == "list" {
        return list_by(alloc, origin.as_str(), words);
    }
    if word.as_str() == "compact" {
        return compact_by(alloc, origin.as_str(), words);
    }
    Ok(None)
}

/// What is asked of `zone`.
fn zone_by(alloc: Global, origin: &str, words: &[String]) -> Result<Option<Command>, OutOfMemory>
    ensures { IfOk result (λ command. command ≡ zone_by origin.now (map string_bytes words.now)) }
{
    let [length, words @ ..] = words else {
        return Ok(None);
    };
    if !names_journal(words) {
        return Ok(None);
    }
    let Some(origin) = origin_of(alloc, origin)? else {
        return Ok(None);
    };
    match length_of(length.as_str()) {
        Some(length) => Ok(Some(Command::PrintZone { origin, length })),
        None => Ok(None),
    }
}

/// What is asked of `list`.
fn list_by(alloc: Global, origin: &str, words: &[String]) -> Result<Option<Command>, OutOfMemory>
    ensures { IfOk result (λ command. command ≡ list_by origin.now (map string_bytes words.now)) }
{
    if !names_journal(words) {
        return Ok(None);
    }
    match origin_of(alloc, origin)? {
        Some(origin) => Ok(Some(Command::ListBatches { origin })),
        None => Ok(None),
    }
}

/// What is asked of `compact`.
fn compact_by(alloc: Global, origin: &str, words: &[String]) -> Result<Option<Command>, OutOfMemory>
    ensures { IfOk result (λ command. command ≡ compact_by origin.now (map string_bytes words.now)) }
{
    if !names_both(words) {
        return Ok(None);
    }
    match origin_of(alloc, origin)? {
        Some(origin) => Ok(Some(Command::Compact { origin })),
        None => Ok(None),
    }
}

/// The folded name of a text, where it is a name's.
fn origin_of(alloc: Global, text: &str) -> Result<Option<Name>, OutOfMemory>
    ensures { IfOk result (λ origin. origin ≡ origin_of text.now) }
{
    match Name::parse(alloc, text) {
        Ok(name) => Ok(Some(name.folded(alloc)?)),
        Err(ProtoError::OutOfMemory) => Err(OutOfMemory),
        Err(_) => Ok(None),
    }
}

/// A number of rows.
fn length_of(word: &str) -> Option<u64>
    ensures { result ≡ length_of word.now }
{
    decimal_of(u64::MAX as u128 + 1, word.as_bytes())
}

/// Whether these words are at most the journal that is read, and then at most the one that is written.
fn names_both(words: &[String]) -> bool
    ensures { result ≡ names_both (map string_bytes words.now) }
{
    match words {
        [] => true,
        [word] => is_journal_word(word.as_str()) || is_into_word(word.as_str()),
        [word, other] => is_journal_word(word.as_str()) && is_into_word(other.as_str()),
        _ => false,
    }
}

fn is_into_word(word: &str) -> bool
    ensures { result ≡ is_into_word word.now }
{
    is_path_word(word, INTO)
}
