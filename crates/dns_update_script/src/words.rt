//! The words of a line of a script.

ghost use Rattle.std.specs.Prelude.{◌≡◌, ◌∷◌, ◌++◌, [], IfSome, IfNone};
ghost use Rattle.dns_presentation.specs.Words.{is_blank};
ghost use Rattle.dns_update_script.specs.Words.{words_of, from_word, before_blank, from_blank, behind_word, AreWords};

/// The words of a line, as far as they are told apart.
#[derive(Drop)]
pub(crate) enum Words<'a> {
    /// No word.
    None,
    /// One word.
    One(&'a [u8]),
    /// Two words.
    Two(&'a [u8], &'a [u8]),
    /// Three words or more: the first three, and the line behind them.
    More(&'a [u8], &'a [u8], &'a [u8], &'a [u8]),
}

/// The words of a line.
pub(crate) fn words_of(line: &[u8]) -> Words<'_>
    ensures { AreWords (words_of line.now) result }
{
    let Some((first, behind)) = split_word(line) else {
        return Words::None;
    };
    let Some((second, behind)) = split_word(behind) else {
        return Words::One(first);
    };
    let Some((third, behind)) = split_word(behind) else {
        return Words::Two(first, second);
    };
    Words::More(first, second, third, behind)
}

/// The first word of a line, and the line behind it; none where the line has no word.
pub(crate) fn split_word(line: &[u8]) -> Option<(&[u8], &[u8])>
    ensures some { IfSome result (λ parts. words_of line.now ≡ parts.0.now ∷ words_of parts.1.now) }
    ensures behind { IfSome result (λ parts. parts.1.now ≡ behind_word line.now) }
    ensures none { IfNone result (words_of line.now ≡ []) }
{
    let text = from_word(line);
    if text.is_empty() {
        return None;
    }
    Some(cut_word(text))
}

/// A line from its first word on; nothing where it has no word.
pub(crate) fn from_word(line: &[u8]) -> &[u8]
    ensures { result.now ≡ from_word line.now }
{
    for (place, byte) in line.iter().enumerate() {
        if !is_blank(*byte) {
            return line.split_at(place).1;
        }
    }
    line.split_at(line.len()).1
}

/// A text up to its first blank, and the text from that on.
fn cut_word(text: &[u8]) -> (&[u8], &[u8])
    ensures word { result.0.now ≡ before_blank text.now }
    ensures behind { result.1.now ≡ from_blank text.now }
{
    for (place, byte) in text.iter().enumerate() {
        if is_blank(*byte) {
            return text.split_at(place);
        }
    }
    text.split_at(text.len())
}

fn is_blank(byte: u8) -> bool
    ensures { result ≡ is_blank byte }
{
    byte == b' ' || byte == b'\t'
}
