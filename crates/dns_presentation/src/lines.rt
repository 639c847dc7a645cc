//! The lines of a text.

ghost use Rattle.std.specs.Prelude.{◌≡◌, ◌<◌, ◌≤◌, ◌+◌, ◌∷◌, [], length, IfSome, IfNone};
ghost use Rattle.dns_presentation.specs.Lines.{ends_in, without_return, lines_of, parts_of};

use memchr::memchr;

/// The first line of a text, and the text behind it; none where the text is at its end.
///
/// A line ends with a line feed. A carriage return before it is no part of the line, and the last line may lack it.
#[tactic(auto, using(crate::proofs::Searches::lines_none))]
pub fn split_line(text: &[u8]) -> Option<(&[u8], &[u8])>
    ensures some { IfSome result (λ parts. lines_of text.now ≡ parts.0.now ∷ lines_of parts.1.now) }
    ensures none { IfNone result (lines_of text.now ≡ []) }
    ensures shorter { IfSome result (λ parts. length parts.1.now < length text.now) }
    ensures within { IfSome result (λ parts. length parts.0.now + length parts.1.now ≤ length text.now) }
{
    if let Some(place) = memchr(b'\n', text) {
        let (line, end) = text.split_at(place);
        return Some((without_return(line), &end[1..]));
    }
    if text.is_empty() {
        return None;
    }
    Some(text.split_at(text.len()))
}

fn without_return(line: &[u8]) -> &[u8]
    ensures line { result.now ≡ without_return line.now }
    ensures within { length result.now ≤ length line.now }
{
    if ends_in(b'\r', line) {
        return line.split_at(line.len() - 1).0;
    }
    line
}

/// Whether this is the last byte.
fn ends_in(byte: u8, bytes: &[u8]) -> bool
    ensures { result ≡ ends_in byte bytes.now }
{
    match bytes.last() {
        None => false,
        Some(last) => *last == byte,
    }
}

/// The part of a text before the first separator, and the text behind that; none where there is no separator. The parts are short.
pub(crate) fn split_part(separator: u8, text: &[u8]) -> Option<(&[u8], &[u8])>
    ensures some { IfSome result (λ parts. parts_of separator text.now ≡ parts.0.now ∷ parts_of separator parts.1.now) }
    ensures none { IfNone result (parts_of separator text.now ≡ text.now ∷ []) }
{
    for (place, byte) in text.iter().enumerate() {
        if *byte == separator {
            let (part, end) = text.split_at(place);
            return Some((part, &end[1..]));
        }
    }
    None
}
