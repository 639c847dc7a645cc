//! The journals that the words of the auditor name.

ghost use Rattle.std.specs.Prelude.{◌≡◌, IfOk, map, string_bytes, codes, true, false};
ghost use Rattle.std.specs.Option.{option_map};
ghost use Rattle.dns_program.specs.Choices.{IsChosen, audited_path};

use crate::choices::Chosen;
use dns_audit::{INTO, JOURNAL, command_of, path_of};
use dns_io::OutOfMemory;
use std::alloc::Global;

/// The journal that is read. One that is named is never taken for one in memory.
pub fn read_journal<'a>(alloc: Global, words: &'a [String]) -> Chosen<'a>
    ensures { IsChosen (audited_path (codes "--journal=") (map string_bytes words.now)) true result }
{
    match audited_path(alloc, words, JOURNAL) {
        Ok(None) => Chosen::InMemory,
        Ok(Some(path)) => Chosen::InPresentFile(path),
        Err(OutOfMemory) => Chosen::WithoutMemory,
    }
}

/// The journal that is written. One that is named is never taken for one in memory.
pub fn written_journal<'a>(alloc: Global, words: &'a [String]) -> Chosen<'a>
    ensures { IsChosen (audited_path (codes "--into=") (map string_bytes words.now)) false result }
{
    match audited_path(alloc, words, INTO) {
        Ok(None) => Chosen::InMemory,
        Ok(Some(path)) => Chosen::InFile(path),
        Err(OutOfMemory) => Chosen::WithoutMemory,
    }
}

/// The path of the file that a key names, as `--journal=`, in the words of a command. For words that are no command no file is opened.
fn audited_path<'a>(
    alloc: Global,
    words: &'a [String],
    key: &str,
) -> Result<Option<&'a str>, OutOfMemory>
    ensures { IfOk result (λ path. option_map (λ p. p.now) path ≡ audited_path key.now (map string_bytes words.now)) }
{
    let Some(path) = path_of(words, key) else {
        return Ok(None);
    };
    if command_of(alloc, words)?.is_some() {
        return Ok(Some(path));
    }
    Ok(None)
}
