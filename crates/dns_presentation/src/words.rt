//! The words of one line of a zone's text (RFC 1035 5.1).

ghost use Rattle.std.specs.Prelude.{◌≡◌, ◌<◌, ◌∷◌, ◌==◌, ◌&&◌, not, [], true, false, length, IfSome, IfNone};
ghost use Rattle.dns_presentation.specs.Words.{is_blank, is_mark, is_stop, begins_blank, begins_plain, tokens_from, tokens_of, plain, quoted};
ghost use Rattle.dns_presentation.specs.Words.{Plain, Quoted, Unclosed};

use std::marker::Model;

/// A word, which is a part of its line: a backslash and what it escapes stand in it as they were written.
#[derive(Drop)]
pub struct Word<'a> {
    quoted: bool,
    text: &'a [u8],
}

impl<'a> Model for Word<'a> {
    ghost use Rattle.dns_presentation.specs.Words.{Word};

    ghost Value = { Word };

    ghost view = { λ w. record { quoted = w.quoted; text = w.text.now } };
}

impl<'a> Word<'a> {
    /// A word out of quotes.
    pub fn plain(text: &'a [u8]) -> Word<'a>
        ensures { result ≡ record { quoted = false; text = text.now } }
    {
        Word {
            quoted: false,
            text,
        }
    }

    /// A word in quotes, which are no part of the text.
    pub(crate) fn quoted(text: &'a [u8]) -> Word<'a>
        ensures { result ≡ record { quoted = true; text = text.now } }
    {
        Word { quoted: true, text }
    }

    /// Whether it stands in quotes.
    pub(crate) fn is_quoted(&self) -> bool
        ensures { result ≡ self.now.quoted }
    {
        self.quoted
    }

    /// Its bytes, without quotes.
    pub(crate) fn text(&self) -> &'a [u8]
        ensures { result.now ≡ self.now.text }
    {
        self.text
    }
}

/// The part of a line up to the quote that closes it, and the line behind that quote.
pub(crate) fn split_quoted(line: &[u8]) -> Option<(&[u8], &[u8])>
    ensures some { IfSome result (λ parts. tokens_from (Quoted []) line.now ≡ quoted parts.0.now ∷ tokens_of parts.1.now) }
    ensures none { IfNone result (tokens_from (Quoted []) line.now ≡ Unclosed ∷ []) }
    ensures shorter { IfSome result (λ parts. length parts.1.now < length line.now) }
{
    let mut escaped = false;
    for (place, byte) in line.iter().enumerate() {
        if escaped {
            escaped = false;
            continue;
        }
        if *byte == b'"' {
            let (text, end) = line.split_at(place);
            return Some((text, &end[1..]));
        }
        escaped = *byte == b'\\';
    }
    None
}

/// The part of a line up to the byte that ends a word out of quotes, and the line from that byte on. In the most words stands no
/// backslash, and each byte is looked at alone.
pub(crate) fn split_plain(line: &[u8]) -> (&[u8], &[u8])
    ensures word { tokens_from (Plain []) line.now ≡ plain result.0.now ∷ tokens_of result.1.now }
    ensures shorter { begins_plain line.now ≡ true → length result.1.now < length line.now }
{
    for (place, byte) in line.iter().enumerate() {
        if goes_on(*byte) {
            continue;
        }
        if *byte == b'\\' {
            return split_escaped(line);
        }
        return line.split_at(place);
    }
    line.split_at(line.len())
}

/// The same where a backslash may stand in the word.
fn split_escaped(line: &[u8]) -> (&[u8], &[u8])
    ensures word { tokens_from (Plain []) line.now ≡ plain result.0.now ∷ tokens_of result.1.now }
    ensures shorter { begins_plain line.now ≡ true → length result.1.now < length line.now }
{
    let mut escaped = false;
    for (place, byte) in line.iter().enumerate() {
        if escaped {
            escaped = false;
            continue;
        }
        if is_stop(*byte) {
            return line.split_at(place);
        }
        escaped = *byte == b'\\';
    }
    line.split_at(line.len())
}

/// A dot for each byte that goes on with a word out of quotes, and another byte for each that ends it, and for the backslash.
static WORD_BYTES: [u8; 256] = *b"\
    .........#......................\
    #.#.....##.................#....\
    ............................#...\
    ................................\
    ................................\
    ................................\
    ................................\
    ................................";

/// Whether the byte goes on with a word out of quotes, and is no backslash.
fn goes_on(byte: u8) -> bool
    ensures { result ≡ (not (is_stop byte) && not (byte == 92)) }
{
    WORD_BYTES[byte as usize] == b'.'
}

/// Whether a line begins with a blank.
pub(crate) fn begins_blank(line: &[u8]) -> bool
    ensures { result ≡ begins_blank line.now }
{
    match line {
        [] => false,
        [byte, ..] => is_blank(*byte),
    }
}

pub(crate) fn is_blank(byte: u8) -> bool
    ensures { result ≡ is_blank byte }
{
    byte == b' ' || byte == b'\t'
}

fn is_mark(byte: u8) -> bool
    ensures { result ≡ is_mark byte }
{
    byte == b';' || byte == b'(' || byte == b')'
}

/// Whether the byte ends a word out of quotes.
fn is_stop(byte: u8) -> bool
    ensures { result ≡ is_stop byte }
{
    is_blank(byte) || byte == b'"' || is_mark(byte)
}
