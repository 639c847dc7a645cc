//! What the words of the command line ask for. The program's name is not among them.

ghost use Rattle.std.specs.Prelude.{◌≡◌, ◌≤◌, IfOk, IfSome, map, string_bytes};
ghost use Rattle.dns_follow.specs.Commands.{HasFrom, origin_of, id_of, feed_by, follow_by, command_of};

use dns_io::OutOfMemory;
use dns_name::{Name, ProtoError};
use dns_words::{decimal_of, names_journal};
use std::alloc::Global;

/// What is asked for.
#[derive(Debug, Drop)]
pub enum Command {
    /// To write the frames of the rows of a journal.
    Feed {
        /// The zone's origin, folded.
        origin: Name,
        /// The id of the first row, from 1 on.
        from: u64,
    },
    /// To take the frames of a feed.
    Follow {
        /// The zone's origin, folded.
        origin: Name,
    },
}

/// What the words ask for: `feed ORIGIN FROM` or `follow ORIGIN`, each with at most one `--journal=PATH` behind it. ORIGIN is a name's text
/// (RFC 1035 5.1), FROM a decimal number from 1 to 2^64 - 1 that begins with no zero, and PATH is not empty. Any other words are no
/// command, and give None.
#[tactic(auto, unfolding(crate::specs::Commands::command_of))]
pub fn command_of(alloc: Global, words: &[String]) -> Result<Option<Command>, OutOfMemory>
    ensures is { IfOk result (λ command. command ≡ command_of (map string_bytes words.now)) }
    ensures some { IfOk result (λ command. IfSome command HasFrom) }
{
    let [word, origin, words @ ..] = words else {
        return Ok(None);
    };
    if word.as_str() == "feed" {
        return feed_by(alloc, origin.as_str(), words);
    }
    if word.as_str() == "follow" {
        return follow_by(alloc, origin.as_str(), words);
    }
    Ok(None)
}

/// What is asked of `feed`.
fn feed_by(alloc: Global, origin: &str, words: &[String]) -> Result<Option<Command>, OutOfMemory>
    ensures is { IfOk result (λ command. command ≡ feed_by origin.now (map string_bytes words.now)) }
    ensures some { IfOk result (λ command. IfSome command HasFrom) }
{
    let [from, words @ ..] = words else {
        return Ok(None);
    };
    if !names_journal(words) {
        return Ok(None);
    }
    let Some(origin) = origin_of(alloc, origin)? else {
        return Ok(None);
    };
    match id_of(from.as_str()) {
        Some(from) => Ok(Some(Command::Feed { origin, from })),
        None => Ok(None),
    }
}

/// What is asked of `follow`.
fn follow_by(alloc: Global, origin: &str, words: &[String]) -> Result<Option<Command>, OutOfMemory>
    ensures is { IfOk result (λ command. command ≡ follow_by origin.now (map string_bytes words.now)) }
    ensures some { IfOk result (λ command. IfSome command HasFrom) }
{
    if !names_journal(words) {
        return Ok(None);
    }
    match origin_of(alloc, origin)? {
        Some(origin) => Ok(Some(Command::Follow { origin })),
        None => Ok(None),
    }
}

/// The folded name of a text, where it is a name's.
fn origin_of(alloc: Global, text: &str) -> Result<Option<Name>, OutOfMemory>
    ensures { IfOk result (λ origin. origin ≡ origin_of text.now) }
{
    match Name::parse(alloc, text) {
        Ok(name) => Ok(Some(name.folded(alloc)?)),
        Err(ProtoError::OutOfMemory) => Err(OutOfMemory),
        Err(_) => Ok(None),
    }
}

/// The id of a row.
fn id_of(word: &str) -> Option<u64>
    ensures is { result ≡ id_of word.now }
    ensures some { IfSome result (λ id. 1 ≤ id) }
{
    match decimal_of(u64::MAX as u128 + 1, word.as_bytes()) {
        Some(number) => { if 1 <= number { Some(number) } else { None } }
        None => None,
    }
}
