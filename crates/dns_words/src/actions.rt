//! What the words of a command line ask for, whatever the program does.

ghost use Rattle.std.specs.Prelude.{◌≡◌, ◌↔◌, [], IsErr, IfOk, map, string_bytes};
ghost use Rattle.dns_words.specs.Actions.{action_of_word, action_of};

use dns_io::OutOfMemory;
use std::alloc::Global;
use std::env;
use std::io::ErrorKind;
use std::rt::HostRuntime;

/// The words of the command line with which the program was started, without its name; none where they could not be read, as [`unread_words`]
/// says.
pub fn command_words(rt: &HostRuntime) -> Result<Vec<String>, OutOfMemory> {
    let all = match env::args(rt) {
        Ok(all) => all,
        Err(error) => return unread_words(rt.alloc(), error.kind()),
    };
    let mut words = Vec::new(rt.alloc());
    for word in all.skip(1) {
        words.push(word)?;
    }
    Ok(words)
}

/// The words of a command line that could not be read, for this kind of error: where one of them is not UTF-8 there is no
/// command, as where there is no word.
pub fn unread_words(alloc: Global, kind: ErrorKind) -> Result<Vec<String>, OutOfMemory>
    ensures none { IfOk result (λ words. words.items ≡ []) }
    ensures memory { IsErr result ↔ (kind ≡ ErrorKind.OutOfMemory) }
{
    match kind {
        ErrorKind::OutOfMemory => Err(OutOfMemory),
        _ => Ok(Vec::new(alloc)),
    }
}

/// What the program is asked to do.
#[derive(Clone, Copy, Debug, PartialEq, Eq)]
pub enum Action {
    /// To say how it is used.
    Help,
    /// To say which version it is.
    Version,
    /// To do what a command says, if the words are one.
    Command,
}

/// What the words ask for: help where `--help` is the only word, the version where `--version` is, and else a command.
#[tactic(auto, unfolding(crate::specs::Actions::action_of))]
pub fn action_of(words: &[String]) -> Action
    ensures { result ≡ action_of (map string_bytes words.now) }
{
    match words {
        [word] => action_of_word(word.as_str()),
        _ => Action::Command,
    }
}

fn action_of_word(word: &str) -> Action
    ensures { result ≡ action_of_word word.now }
{
    if word == "--help" {
        return Action::Help;
    }
    if word == "--version" {
        return Action::Version;
    }
    Action::Command
}
