//! Where a file stands that a configuration names.

ghost use Rattle.std.specs.Prelude.{◌≡◌, Some, IfOk, string_bytes};
ghost use Rattle.std.specs.Option.{option_copied};
ghost use Rattle.dns_configuration.specs.Paths.{is_absolute, ends_with_slash, joined, path_from};

use dns_io::OutOfMemory;
use std::alloc::Global;

/// The path of a file that is named by a path, below a folder where there is one and the path does not begin with a slash.
pub(crate) fn path_from(
    alloc: Global,
    folder: Option<&str>,
    path: &str,
) -> Result<String, OutOfMemory>
    ensures { IfOk result (λ whole. string_bytes whole ≡ path_from (option_copied folder.entry) path.now) }
{
    match folder {
        None => Ok(String::from_str(alloc, path)?),
        Some(folder) => path_below(alloc, folder, path),
    }
}

/// The path, below a folder where it does not begin with a slash.
fn path_below(alloc: Global, folder: &str, path: &str) -> Result<String, OutOfMemory>
    ensures { IfOk result (λ whole. string_bytes whole ≡ path_from (Some folder.now) path.now) }
{
    if is_absolute(path.as_bytes()) {
        return Ok(String::from_str(alloc, path)?);
    }
    joined(alloc, folder, path)
}

/// A path below a folder, with a slash between the two where one is wanted.
fn joined(alloc: Global, folder: &str, path: &str) -> Result<String, OutOfMemory>
    ensures { IfOk result (λ whole. string_bytes whole ≡ joined folder.now path.now) }
{
    let bytes = folder.as_bytes();
    if bytes.is_empty() || ends_with_slash(bytes) {
        return Ok(format!(in alloc; "{folder}{path}")?);
    }
    Ok(format!(in alloc; "{folder}/{path}")?)
}

fn is_absolute(path: &[u8]) -> bool
    ensures { result ≡ is_absolute path.now }
{
    match path {
        [] => false,
        [first, ..] => *first == b'/',
    }
}

fn ends_with_slash(text: &[u8]) -> bool
    ensures { result ≡ ends_with_slash text.now }
{
    match text.last() {
        None => false,
        Some(last) => *last == b'/',
    }
}
