//! What the words of the command line ask for. The program's name is not among them.

ghost use Rattle.std.specs.Prelude.{◌≡◌, map, string_bytes};
ghost use Rattle.dns_update_client.specs.Settings.{id_of, server_in, id_in, settings_by, settings_of};

use dns_io::Peer;
use dns_words::{address_of, behind, decimal_of};

/// The key of the server's address and port.
const SERVER: &str = "--server=";

/// The key of the first message's id.
const ID: &str = "--id=";

/// Which server is sent to, and which ids the messages have.
#[derive(Clone, Copy, Debug, PartialEq, Eq)]
pub struct Settings {
    /// The server's address and port.
    pub server: Peer,
    /// The id of the first message. Those of the others count on from it, and 0 follows 65,535.
    pub first_id: u16,
}

/// What the words ask for: `--server=IP:PORT` and then `--id=N`. IP has 8 (IPv4) or 32 (IPv6) hex digits, and PORT and N are decimal
/// numbers below 65,536 with no zero before another digit. Any other words give None.
#[tactic(auto, unfolding(crate::specs::Settings::settings_of))]
pub fn settings_of(words: &[String]) -> Option<Settings>
    ensures { result ≡ settings_of (map string_bytes words.now) }
{
    match words {
        [server, id] => settings_by(server.as_str(), id.as_str()),
        _ => None,
    }
}

#[tactic(auto, unfolding(crate::specs::Settings::settings_by))]
fn settings_by(server: &str, id: &str) -> Option<Settings>
    ensures { result ≡ settings_by server.now id.now }
{
    let server = server_in(server)?;
    let first_id = id_in(id)?;
    Some(Settings { server, first_id })
}

fn server_in(word: &str) -> Option<Peer>
    ensures { result ≡ server_in word.now }
{
    match behind(word, SERVER) {
        Some(text) => address_of(text.as_bytes()),
        None => None,
    }
}

fn id_in(word: &str) -> Option<u16>
    ensures { result ≡ id_in word.now }
{
    match behind(word, ID) {
        Some(text) => id_of(text.as_bytes()),
        None => None,
    }
}

fn id_of(text: &[u8]) -> Option<u16>
    ensures { result ≡ id_of text.now }
{
    let number = decimal_of(65536, text)?;
    Some(number as u16)
}
