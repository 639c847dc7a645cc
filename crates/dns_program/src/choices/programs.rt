//! The program that the words of the command line are for.

ghost use Rattle.std.specs.Prelude.{◌≡◌, map, string_bytes};
ghost use Rattle.dns_program.specs.Programs.{asked_by, asked_by_words, is_called, own_words, program_of, stands_before};

/// A program: the words of each are a part of this one's.
#[derive(Clone, Copy, Debug, PartialEq, Eq)]
pub enum Program {
    /// The server: `serve`, `events` and `load`.
    Server,
    /// The auditor: `zone`, `list` and `compact`.
    Auditor,
    /// The follower: `feed` and `follow`.
    Follower,
}

/// What is asked for.
#[derive(Clone, Copy, Debug, PartialEq, Eq)]
pub struct Asked {
    /// The program.
    pub program: Program,
    /// The program's own words stand behind the first one.
    pub are_behind: bool,
}

/// What is asked for under this name of the program's file, with these words. As `dns-audit` and `dns-follow` it is that program alone, and
/// under any other name the first word tells it: a command of one of them, or `audit` before the auditor's words.
pub fn what_is_asked(name: &str, words: &[String]) -> Asked
    ensures { result ≡ asked_by name.now (map string_bytes words.now) }
{
    if is_called(name, "dns-audit", "/dns-audit") {
        return Asked {
            program: Program::Auditor,
            are_behind: false,
        };
    }
    if is_called(name, "dns-follow", "/dns-follow") {
        return Asked {
            program: Program::Follower,
            are_behind: false,
        };
    }
    asked_by_words(words)
}

/// Whether a name, as the system tells it, is this one, or ends with it behind a slash.
fn is_called(name: &str, bare: &str, behind_slash: &str) -> bool
    ensures { result ≡ is_called bare.now behind_slash.now name.now }
{
    name == bare || name.as_bytes().ends_with(behind_slash.as_bytes())
}

/// What is asked for by the words alone.
#[tactic(auto, unfolding(crate::specs::Programs::asked_by_words))]
fn asked_by_words(words: &[String]) -> Asked
    ensures { result ≡ asked_by_words (map string_bytes words.now) }
{
    match words {
        [] => Asked {
            program: Program::Server,
            are_behind: false,
        },
        [first, ..] => Asked {
            program: program_of(first.as_str()),
            are_behind: stands_before(first.as_str()),
        },
    }
}

/// The program of a first word.
fn program_of(word: &str) -> Program
    ensures { result ≡ program_of word.now }
{
    match word {
        "audit" => Program::Auditor,
        "zone" => Program::Auditor,
        "list" => Program::Auditor,
        "compact" => Program::Auditor,
        "feed" => Program::Follower,
        "follow" => Program::Follower,
        _ => Program::Server,
    }
}

/// Whether a first word stands before those of its program: `audit` is none of the auditor's.
fn stands_before(word: &str) -> bool
    ensures { result ≡ stands_before word.now }
{
    word == "audit"
}

/// The words of the program that is asked for: all of them, or those behind the first.
pub fn own_words(words: Vec<String>, are_behind: bool) -> Vec<String>
    ensures { result.items ≡ own_words are_behind words.items }
{
    if !are_behind {
        return words;
    }
    let mut own = words;
    if own.is_empty() {
        return own;
    }
    let _first = own.remove(0);
    own
}
