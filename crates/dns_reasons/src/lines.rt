//! The lines of a text, of which one is shown to a person.

ghost use Rattle.std.specs.Prelude.{◌≡◌, take};
ghost use Rattle.dns_reasons.specs.Lines.{behind_line, first_line, line_behind, text_behind};

use dns_words::first_place;

/// How much of a line is shown at most, in bytes.
const SHOWN: usize = 160;

/// The line of a text with so many lines before it, or what stands first on it; empty where the text has no more lines than these.
pub fn line_behind(text: &[u8], before: u64) -> &[u8]
    ensures { result.now ≡ line_behind before text.now }
{
    front_of(first_line(text_behind(text, before)))
}

/// As much of a line as is shown.
fn front_of(line: &[u8]) -> &[u8]
    ensures { result.now ≡ take 160 line.now }
{
    if line.len() <= SHOWN {
        return line;
    }
    line.split_at(SHOWN).0
}

/// A text without so many of its first lines.
fn text_behind(text: &[u8], before: u64) -> &[u8]
    ensures { result.now ≡ text_behind before text.now }
{
    let mut left = before;
    let mut rest = text;
    while 0 < left {
        rest = behind_line(rest);
        left -= 1;
    }
    rest
}

/// What stands before the first line feed, or all.
#[tactic(auto, unfolding(crate::specs::Lines::first_line))]
fn first_line(text: &[u8]) -> &[u8]
    ensures { result.now ≡ first_line text.now }
{
    match first_place(b'\n', text) {
        Some(place) => text.split_at(place).0,
        None => text,
    }
}

/// What stands behind the first line feed, or nothing.
#[tactic(auto, unfolding(crate::specs::Lines::behind_line))]
fn behind_line(text: &[u8]) -> &[u8]
    ensures { result.now ≡ behind_line text.now }
{
    match first_place(b'\n', text) {
        Some(place) => text.split_at(place + 1).1,
        None => &[],
    }
}
