//! The commands of the programs: which words stand behind each.

ghost use Rattle.std.specs.Prelude.{◌≡◌};
ghost use Rattle.dns_reasons.specs.Tools.{command_of, expected, first_place, keys_of, last_why, second_place};

use crate::keys::Key;
use crate::places::Place;
use crate::why::Why;

/// A program whose first word is a command.
#[derive(Clone, Copy, Debug, PartialEq, Eq)]
pub enum Tool {
    /// The server.
    Server,
    /// The auditor.
    Auditor,
    /// The follower.
    Follower,
}

/// A command.
#[derive(Clone, Copy, Debug, PartialEq, Eq)]
pub(crate) enum Command {
    /// The server over sockets.
    Serve,
    /// The server over a list of events.
    Events,
    /// The server over a list that is drawn.
    Load,
    /// The auditor, which prints a zone.
    Zone,
    /// The auditor, which lists the batches.
    List,
    /// The auditor, which writes a short journal.
    Compact,
    /// The follower, which feeds others.
    Feed,
    /// The follower, which takes a feed.
    Follow,
}

const SERVE: [Key; 11] = [
    Key::Udp,
    Key::Tcp,
    Key::Connections,
    Key::Limit,
    Key::Workers,
    Key::Zone,
    Key::Journal,
    Key::Update,
    Key::Deny,
    Key::Allow,
    Key::Payload,
];

const EVENTS: [Key; 6] = [
    Key::Zone,
    Key::Journal,
    Key::Update,
    Key::Deny,
    Key::Allow,
    Key::Payload,
];

const LOAD: [Key; 0] = [];

const JOURNAL: [Key; 1] = [Key::Journal];

const COMPACT: [Key; 2] = [Key::Journal, Key::Into];

/// The command of a program that a word is.
pub(crate) fn command_of(tool: Tool, word: &str) -> Option<Command>
    ensures { result ≡ command_of tool word.now }
{
    match tool {
        Tool::Server => server_command(word),
        Tool::Auditor => auditor_command(word),
        Tool::Follower => follower_command(word),
    }
}

fn server_command(word: &str) -> Option<Command>
    ensures { result ≡ command_of Tool.Server word.now }
{
    if word == "serve" {
        return Some(Command::Serve);
    }
    if word == "events" {
        return Some(Command::Events);
    }
    if word == "load" {
        return Some(Command::Load);
    }
    None
}

fn auditor_command(word: &str) -> Option<Command>
    ensures { result ≡ command_of Tool.Auditor word.now }
{
    if word == "zone" {
        return Some(Command::Zone);
    }
    if word == "list" {
        return Some(Command::List);
    }
    if word == "compact" {
        return Some(Command::Compact);
    }
    None
}

fn follower_command(word: &str) -> Option<Command>
    ensures { result ≡ command_of Tool.Follower word.now }
{
    if word == "feed" {
        return Some(Command::Feed);
    }
    if word == "follow" {
        return Some(Command::Follow);
    }
    None
}

/// That a command of this program was expected.
pub(crate) fn expected(tool: Tool) -> Why
    ensures { result ≡ expected tool }
{
    match tool {
        Tool::Server => Why::Server,
        Tool::Auditor => Why::Auditor,
        Tool::Follower => Why::Follower,
    }
}

/// What stands behind a command.
pub(crate) fn first_place(command: Command) -> Place
    ensures { result ≡ first_place command }
{
    match command {
        Command::Load => Place::Seed,
        _ => Place::Origin,
    }
}

/// What stands behind that, before the keys.
pub(crate) fn second_place(command: Command) -> Option<Place>
    ensures { result ≡ second_place command }
{
    match command {
        Command::Load => Some(Place::Count),
        Command::Zone => Some(Place::Length),
        Command::Feed => Some(Place::From),
        _ => None,
    }
}

/// The keys of a command.
pub(crate) fn keys_of(command: Command) -> &'static [Key]
    ensures { result.now ≡ keys_of command }
{
    match command {
        Command::Serve => &SERVE,
        Command::Events => &EVENTS,
        Command::Load => &LOAD,
        Command::Compact => &COMPACT,
        _ => &JOURNAL,
    }
}

/// What is wrong with a command whose words are each right: no place to listen at, or their order.
pub(crate) fn last_why(command: Command) -> Why
    ensures { result ≡ last_why command }
{
    match command {
        Command::Serve => Why::NoPort,
        _ => Why::Order,
    }
}
