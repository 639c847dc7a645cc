//! The event text.

ghost use Rattle.std.specs.Prelude.{◌≡◌, ◌<◌, ◌+◌, ◌^◌, List, ℕ, ◌∷◌, IfOk, IfErr, OnOk, MatchOption, []};
ghost use Rattle.dns_command.specs.declared.event_text.EventFault.TheVariants.{OutOfMemory as NoMemory};
ghost use Rattle.dns_command.specs.EventText.{milliseconds_of, connection_of, datagram_of, piece_of, accepted_of, end_of, tick_of, stop_of, plain_of, event_of, words_in, is_skipped, events_of};
ghost use Rattle.dns_command.specs.EventReading.{Tells, Gives, given_by};

use dns_io::OutOfMemory;
use dns_presentation::split_line;
use dns_server_core::Event;
use dns_words::{bytes_of, decimal_of, first_place, peer_of};
use std::alloc::{AllocFailed, Global};

/// Why an event text gives no events.
#[derive(Clone, Copy, Debug, PartialEq, Eq)]
pub enum EventFault {
    /// The number, from 1, of the first line outside the form.
    Line(u64),
    /// Memory ran out.
    OutOfMemory,
}

impl From<OutOfMemory> for EventFault {
    ghost from_gives = { λ _ fault. fault ≡ NoMemory };

    fn from(_error: OutOfMemory) -> EventFault {
        EventFault::OutOfMemory
    }
}

/// The lines of an event text that were read so far.
#[derive(Debug, Drop)]
struct LinesRead {
    /// Their events.
    events: Vec<Event>,
    /// How many they are, with those that stand for no event.
    lines: u64,
}

/// The events of a text, in the order of its lines. Lines end with LF, and a CR before it is dropped; the last one may
/// lack its LF. Empty lines and lines that begin with `#` stand for nothing, and are counted. Any other line is an event,
/// its words parted by one space each:
///
/// - `A at conn ip port limit`: a connection was accepted,
/// - `B at conn hex`: bytes came over a connection,
/// - `E at conn`: a connection ended,
/// - `D at ip port hex`: a datagram came in,
/// - `T at`: time passed,
/// - `S at`: the server stops.
///
/// Moments and limits are in milliseconds, below 2^64, and numbers of connections below 2^32; numbers are decimal with no
/// zero before another digit. Addresses have 8 or 32 hex digits, and bytes two hex digits each, or `-` stands for none.
pub fn events_of(alloc: Global, text: &[u8]) -> Result<Vec<Event>, EventFault>
    ensures value { Gives result (events_of text.now) }
{
    let mut state = LinesRead {
        events: Vec::new(alloc),
        lines: 0,
    };
    let mut rest = text;
    while let Some((line, after)) = split_line(rest) {
        take_line(alloc, &mut state, line)?;
        rest = after;
    }
    Ok(state.events)
}

fn take_line(alloc: Global, state: &mut LinesRead, line: &[u8]) -> Result<(), EventFault>
    requires room { state.old.lines + 1 < 2 ^ 64 }
    ensures ok { OnOk result ((lines : List (List ℕ)) → given_by state.new lines ≡ given_by state.old (line.now ∷ lines)) }
    ensures err { IfErr result (λ fault. (lines : List (List ℕ)) → Tells fault (given_by state.old (line.now ∷ lines))) }
    ensures counted { OnOk result (state.new.lines ≡ state.old.lines + 1) }
{
    if is_skipped(line) {
        state.lines += 1;
        return Ok(());
    }
    let event = match event_of(alloc, line)? {
        Some(event) => event,
        None => return Err(EventFault::Line(state.lines + 1)),
    };
    state.lines += 1;
    match state.events.push(event) {
        Ok(()) => Ok(()),
        Err(AllocFailed { .. }) => Err(EventFault::OutOfMemory),
    }
}

fn is_skipped(line: &[u8]) -> bool
    ensures { result ≡ is_skipped line.now }
{
    match line {
        [] => true,
        [first, ..] => *first == b'#',
    }
}

#[tactic(auto, using(crate::proofs::EventWords::event_behind), unfolding(crate::specs::EventText::event_of))]
fn event_of(alloc: Global, line: &[u8]) -> Result<Option<Event>, OutOfMemory>
    ensures { IfOk result (λ event. event ≡ event_of (words_in line.now)) }
{
    let (letter, Some(words)) = split_word(line) else {
        return Ok(None);
    };
    if letter == b"D".as_slice() {
        return datagram_of(alloc, words);
    }
    if letter == b"B".as_slice() {
        return piece_of(alloc, words);
    }
    Ok(plain_of(letter, words))
}

#[tactic(auto, unfolding(crate::specs::EventText::plain_of))]
fn plain_of(letter: &[u8], words: &[u8]) -> Option<Event>
    ensures { result ≡ plain_of letter.now (words_in words.now) }
{
    if letter == b"A".as_slice() {
        return accepted_of(words);
    }
    if letter == b"E".as_slice() {
        return end_of(words);
    }
    if letter == b"T".as_slice() {
        return tick_of(words);
    }
    if letter == b"S".as_slice() {
        return stop_of(words);
    }
    None
}

#[tactic(auto, using(crate::proofs::EventWords::no_datagram), unfolding(crate::specs::EventText::datagram_of))]
fn datagram_of(alloc: Global, words: &[u8]) -> Result<Option<Event>, OutOfMemory>
    ensures { IfOk result (λ event. event ≡ datagram_of (words_in words.now)) }
{
    let (at, Some(words)) = split_word(words) else {
        return Ok(None);
    };
    let (ip, Some(words)) = split_word(words) else {
        return Ok(None);
    };
    let (port, Some(words)) = split_word(words) else {
        return Ok(None);
    };
    let (hex, None) = split_word(words) else {
        return Ok(None);
    };
    let Some(at) = milliseconds_of(at) else {
        return Ok(None);
    };
    let Some(peer) = peer_of(ip, port) else {
        return Ok(None);
    };
    let Some(bytes) = bytes_of(alloc, hex)? else {
        return Ok(None);
    };
    Ok(Some(Event::Datagram { at, peer, bytes }))
}

#[tactic(auto, using(crate::proofs::EventWords::no_piece), unfolding(crate::specs::EventText::piece_of))]
fn piece_of(alloc: Global, words: &[u8]) -> Result<Option<Event>, OutOfMemory>
    ensures { IfOk result (λ event. event ≡ piece_of (words_in words.now)) }
{
    let (at, Some(words)) = split_word(words) else {
        return Ok(None);
    };
    let (conn, Some(words)) = split_word(words) else {
        return Ok(None);
    };
    let (hex, None) = split_word(words) else {
        return Ok(None);
    };
    let Some(at) = milliseconds_of(at) else {
        return Ok(None);
    };
    let Some(conn) = connection_of(conn) else {
        return Ok(None);
    };
    let Some(piece) = bytes_of(alloc, hex)? else {
        return Ok(None);
    };
    Ok(Some(Event::Bytes { at, conn, piece }))
}

#[tactic(auto, using(crate::proofs::EventWords::no_accepted), unfolding(crate::specs::EventText::accepted_of))]
fn accepted_of(words: &[u8]) -> Option<Event>
    ensures { result ≡ accepted_of (words_in words.now) }
{
    let (at, Some(words)) = split_word(words) else {
        return None;
    };
    let (conn, Some(words)) = split_word(words) else {
        return None;
    };
    let (ip, Some(words)) = split_word(words) else {
        return None;
    };
    let (port, Some(words)) = split_word(words) else {
        return None;
    };
    let (limit, None) = split_word(words) else {
        return None;
    };
    let at = milliseconds_of(at)?;
    let conn = connection_of(conn)?;
    let peer = peer_of(ip, port)?;
    let limit = milliseconds_of(limit)?;
    Some(Event::Accepted {
        at,
        conn,
        peer,
        limit,
    })
}

#[tactic(auto, using(crate::proofs::EventWords::no_end), unfolding(crate::specs::EventText::end_of))]
fn end_of(words: &[u8]) -> Option<Event>
    ensures { result ≡ end_of (words_in words.now) }
{
    let (at, Some(words)) = split_word(words) else {
        return None;
    };
    let (conn, None) = split_word(words) else {
        return None;
    };
    let at = milliseconds_of(at)?;
    let conn = connection_of(conn)?;
    Some(Event::Ended { at, conn })
}

#[tactic(auto, using(crate::proofs::EventWords::no_tick), unfolding(crate::specs::EventText::tick_of))]
fn tick_of(words: &[u8]) -> Option<Event>
    ensures { result ≡ tick_of (words_in words.now) }
{
    let (at, None) = split_word(words) else {
        return None;
    };
    let at = milliseconds_of(at)?;
    Some(Event::Tick { at })
}

#[tactic(auto, using(crate::proofs::EventWords::no_stop), unfolding(crate::specs::EventText::stop_of))]
fn stop_of(words: &[u8]) -> Option<Event>
    ensures { result ≡ stop_of (words_in words.now) }
{
    let (at, None) = split_word(words) else {
        return None;
    };
    let at = milliseconds_of(at)?;
    Some(Event::Stop { at })
}

/// A moment or a limit.
fn milliseconds_of(word: &[u8]) -> Option<u64>
    ensures { result ≡ milliseconds_of word.now }
{
    decimal_of(u64::MAX as u128 + 1, word)
}

/// The number of a connection.
fn connection_of(word: &[u8]) -> Option<u32>
    ensures { result ≡ connection_of word.now }
{
    let number = decimal_of(u32::MAX as u128 + 1, word)?;
    Some(number as u32)
}

fn split_word(line: &[u8]) -> (&[u8], Option<&[u8]>)
    ensures { MatchOption result.1 (words_in line.now ≡ result.0.now ∷ []) (λ rest. words_in line.now ≡ result.0.now ∷ words_in rest.now) }
{
    let Some(place) = first_place(b' ', line) else {
        return (line, None);
    };
    let (word, _) = line.split_at(place);
    let (_, rest) = line.split_at(place + 1);
    (word, Some(rest))
}
