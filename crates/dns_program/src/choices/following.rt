//! The journal that the words of the follower name.

ghost use Rattle.std.specs.Prelude.{◌≡◌, IfOk, map, string_bytes};
ghost use Rattle.std.specs.Option.{option_map};
ghost use Rattle.dns_follow.specs.Commands.{command_of};
ghost use Rattle.dns_program.specs.Choices.{IsChosen, feeds, followed_path};

use crate::choices::Chosen;
use dns_follow::{Command, JOURNAL, command_of, path_of};
use dns_io::OutOfMemory;
use std::alloc::Global;

/// The journal that is named: one from which is fed has to be there. One that is named is never taken for one in memory.
pub fn followed_journal<'a>(alloc: Global, words: &'a [String]) -> Chosen<'a>
    ensures { IsChosen (followed_path (map string_bytes words.now)) (feeds (command_of (map string_bytes words.now))) result }
{
    match (followed_path(alloc, words), is_feed(alloc, words)) {
        (Ok(None), _) => Chosen::InMemory,
        (Ok(Some(path)), Ok(true)) => Chosen::InPresentFile(path),
        (Ok(Some(path)), Ok(false)) => Chosen::InFile(path),
        (Ok(Some(_)), Err(OutOfMemory)) => Chosen::WithoutMemory,
        (Err(OutOfMemory), _) => Chosen::WithoutMemory,
    }
}

/// Whether the words are a command that feeds from a journal.
fn is_feed(alloc: Global, words: &[String]) -> Result<bool, OutOfMemory>
    ensures { IfOk result (λ is. is ≡ feeds (command_of (map string_bytes words.now))) }
{
    match command_of(alloc, words)? {
        Some(Command::Feed { origin: _, from: _ }) => Ok(true),
        Some(Command::Follow { origin: _ }) => Ok(false),
        None => Ok(false),
    }
}

/// The path of the journal's file, in the words of a command. For words that are no command no file is opened.
fn followed_path<'a>(alloc: Global, words: &'a [String]) -> Result<Option<&'a str>, OutOfMemory>
    ensures { IfOk result (λ path. option_map (λ p. p.now) path ≡ followed_path (map string_bytes words.now)) }
{
    let Some(path) = path_of(words, JOURNAL) else {
        return Ok(None);
    };
    if command_of(alloc, words)?.is_some() {
        return Ok(Some(path));
    }
    Ok(None)
}
