//! The files that the words of the server name.

ghost use Rattle.std.specs.Prelude.{◌≡◌, IfOk, map, string_bytes, false};
ghost use Rattle.std.specs.Option.{option_map};
ghost use Rattle.dns_program.specs.Choices.{IsChosen, is_server, served_path, zone_path};

use crate::choices::Chosen;
use dns_io::OutOfMemory;
use dns_serve::{JOURNAL, ZONE, is_command, path_of};
use std::alloc::Global;

/// The journal over which a command is done. A journal that the words name is never taken for one in memory.
pub fn served_journal<'a>(alloc: Global, words: &'a [String]) -> Chosen<'a>
    ensures { IsChosen (served_path (map string_bytes words.now)) false result }
{
    match served_path(alloc, words) {
        Ok(None) => Chosen::InMemory,
        Ok(Some(path)) => Chosen::InFile(path),
        Err(OutOfMemory) => Chosen::WithoutMemory,
    }
}

/// The path of the journal's file: the one that the words of a command name. For words that are no command no file is opened.
fn served_path<'a>(alloc: Global, words: &'a [String]) -> Result<Option<&'a str>, OutOfMemory>
    ensures { IfOk result (λ path. option_map (λ p. p.now) path ≡ served_path (map string_bytes words.now)) }
{
    let Some(path) = path_of(words, JOURNAL) else {
        return Ok(None);
    };
    if is_command(alloc, words)? {
        return Ok(Some(path));
    }
    Ok(None)
}

/// The path of the zone text's file, where the words name one.
pub fn zone_path<'a>(words: &'a [String]) -> Option<&'a str>
    ensures { option_map (λ path. path.now) result ≡ zone_path (map string_bytes words.now) }
{
    path_of(words, ZONE)
}

/// Whether the words would have a server serve, which reads standard input until it ends; else that is a list of events.
pub fn is_server(words: &[String]) -> bool
    ensures { result ≡ is_server (map string_bytes words.now) }
{
    match words {
        [command, ..] => command.as_str() == "serve",
        [] => false,
    }
}
