//! The logical lines of a zone's text: each is a line, with those behind it while a bracket is open (RFC 1035 5.1).

ghost use Rattle.std.specs.Prelude.{◌≡◌, ◌+◌, ◌-◌, ◌<◌, ◌≤◌, ◌^◌, ◌∷◌, [], true, length, IfOk, OnOk, IfSome, IfNone};
ghost use Rattle.dns_presentation.specs.Words.{Quoted, Closing, begins_plain, tokens_from, tokens_of};
ghost use Rattle.dns_presentation.specs.LogicalLines.{with_token, with_tokens, empty_line, begun_line, longer_line, lines_after, logical_lines};
ghost use Rattle.dns_presentation.specs.Lines.{lines_of};

use crate::lines::split_line;
use crate::words::{Word, begins_blank, split_plain, split_quoted};
use dns_io::OutOfMemory;
use std::alloc::Global;
use std::marker::Model;

/// How many words the entry of an SOA has: most have fewer.
const WORD_COUNT: usize = 11;

/// A line of a zone's text, with those behind it while a bracket is open.
#[derive(Drop)]
pub struct LogicalLine<'a> {
    number: u64,
    next: u64,
    indented: bool,
    words: Vec<Word<'a>>,
    open_count: u64,
    stray: bool,
    unclosed: bool,
}

impl<'a> Model for LogicalLine<'a> {
    ghost use Rattle.dns_presentation.specs.LogicalLines.{LogicalLine};

    ghost Value = { LogicalLine };

    ghost view = { λ l. record { number = l.number; next = l.next; indented = l.indented; words = l.words.items; open_count = l.open_count; stray = l.stray; unclosed = l.unclosed } };
}

impl<'a> LogicalLine<'a> {
    /// No line yet: the first one of a text comes next.
    pub fn new(alloc: Global) -> Result<LogicalLine<'a>, OutOfMemory>
        ensures { IfOk result (λ line. line.next ≡ 1) }
    {
        Ok(LogicalLine {
            number: 0,
            next: 1,
            indented: false,
            words: Vec::with_capacity(alloc, WORD_COUNT)?,
            open_count: 0,
            stray: false,
            unclosed: false,
        })
    }

    /// Becomes the first logical line of a text, whose first line is the next one, and gives the text behind it; none at the
    /// text's end. The room that it has is used again; where memory runs out, nothing is said of what it is then.
    pub fn pass(&mut self, text: &'a [u8]) -> Result<Option<&'a [u8]>, OutOfMemory>
        requires { self.old.next + length text.now < 2 ^ 64 }
        ensures some { IfOk result (λ found. IfSome found
            (λ after. logical_lines self.old.next text.now ≡ self.new ∷ logical_lines self.new.next after.now)) }
        ensures none { IfOk result (λ found. IfNone found (logical_lines self.old.next text.now ≡ [])) }
        ensures shorter { IfOk result (λ found. IfSome found (λ after. length after.now < length text.now)) }
        ensures counted { IfOk result (λ found. IfSome found
            (λ after. self.new.next + length after.now ≤ self.old.next + length text.now)) }
    {
        let Some((line, after)) = split_line(text) else {
            return Ok(None);
        };
        self.begin(line)?;
        let rest = self.complete(after)?;
        Ok(Some(rest))
    }

    /// The number of the line on which it begins, from 1.
    pub fn number(&self) -> u64
        ensures { result ≡ self.now.number }
    {
        self.number
    }

    /// Whether it begins with a blank.
    pub fn is_indented(&self) -> bool
        ensures { result ≡ self.now.indented }
    {
        self.indented
    }

    /// Its words, in order.
    pub fn words(&self) -> &[Word<'a>]
        ensures { result.now ≡ self.now.words }
    {
        self.words.as_slice()
    }

    /// How many brackets are open at its end.
    pub fn open_count(&self) -> u64
        ensures { result ≡ self.now.open_count }
    {
        self.open_count
    }

    /// Whether a bracket that closes none stands in it.
    pub fn is_stray(&self) -> bool
        ensures { result ≡ self.now.stray }
    {
        self.stray
    }

    /// Whether a quote is not closed on its line.
    pub fn is_unclosed(&self) -> bool
        ensures { result ≡ self.now.unclosed }
    {
        self.unclosed
    }

    /// Becomes the logical line that begins with a line, the next one.
    fn begin(&mut self, line: &'a [u8]) -> Result<(), OutOfMemory>
        requires next { self.old.next + 1 < 2 ^ 64 }
        requires few { length line.now < 2 ^ 64 }
        ensures ok { OnOk result (self.new ≡ begun_line self.old.next line.now) }
        ensures few { OnOk result (self.new.open_count ≤ length line.now) }
        ensures counted { OnOk result (self.new.next ≡ self.old.next + 1) }
    {
        self.number = self.next;
        self.next = self.number + 1;
        self.indented = begins_blank(line);
        self.words.clear();
        self.open_count = 0;
        self.stray = false;
        self.unclosed = false;
        self.take_tokens(line)
    }

    /// Goes on in the lines of a text while a bracket is open, and gives the text behind them.
    fn complete(&mut self, text: &'a [u8]) -> Result<&'a [u8], OutOfMemory>
        requires next { self.old.next + length text.now < 2 ^ 64 }
        requires few { self.old.open_count + length text.now < 2 ^ 64 }
        ensures whole { IfOk result (λ rest. lines_after self.old (lines_of text.now) ≡ self.new ∷ logical_lines self.new.next rest.now) }
        ensures shorter { IfOk result (λ rest. length rest.now ≤ length text.now) }
        ensures counted { IfOk result (λ rest. self.new.next + length rest.now ≤ self.old.next + length text.now) }
    {
        let mut rest = text;
        while self.open_count > 0 {
            let Some((line, after)) = split_line(rest) else {
                return Ok(rest);
            };
            self.take_line(line)?;
            rest = after;
        }
        Ok(rest)
    }

    /// Goes on in a line.
    fn take_line(&mut self, line: &'a [u8]) -> Result<(), OutOfMemory>
        requires next { self.old.next + 1 < 2 ^ 64 }
        requires few { self.old.open_count + length line.now < 2 ^ 64 }
        ensures ok { OnOk result (self.new ≡ longer_line self.old line.now) }
        ensures few { OnOk result (self.new.open_count ≤ self.old.open_count + length line.now) }
        ensures counted { OnOk result (self.new.next ≡ self.old.next + 1) }
    {
        self.next += 1;
        self.take_tokens(line)
    }

    /// Takes what stands in a line.
    fn take_tokens(&mut self, line: &'a [u8]) -> Result<(), OutOfMemory>
        requires { self.old.open_count + length line.now < 2 ^ 64 }
        ensures ok { OnOk result (self.new ≡ with_tokens self.old (tokens_of line.now)) }
        ensures few { OnOk result (self.new.open_count ≤ self.old.open_count + length line.now) }
        ensures counted { OnOk result (self.new.next ≡ self.old.next) }
    {
        let mut rest = line;
        while let [first, behind @ ..] = rest {
            rest = self.take_token(*first, rest, behind)?;
        }
        Ok(())
    }

    /// Takes what stands first in a line, and gives the line behind it.
    fn take_token(
        &mut self,
        first: u8,
        line: &'a [u8],
        behind: &'a [u8],
    ) -> Result<&'a [u8], OutOfMemory>
        requires few { self.old.open_count + 1 < 2 ^ 64 }
        requires line { line.now ≡ first ∷ behind.now }
        ensures ok { IfOk result (λ after. with_tokens self.new (tokens_of after.now) ≡ with_tokens self.old (tokens_of line.now)) }
        ensures few { IfOk result (λ after. self.new.open_count ≤ self.old.open_count + 1) }
        ensures shorter { IfOk result (λ after. length after.now < length line.now) }
        ensures counted { OnOk result (self.new.next ≡ self.old.next) }
    {
        match first {
            b' ' | b'\t' => Ok(behind),
            b'"' => self.take_quoted(behind),
            b';' => Ok(end_of(behind)),
            b'(' => {
                self.open_count += 1;
                Ok(behind)
            }
            b')' => {
                self.close();
                Ok(behind)
            }
            _ => self.take_plain(line),
        }
    }

    /// Takes a word in quotes behind its first quote.
    fn take_quoted(&mut self, line: &'a [u8]) -> Result<&'a [u8], OutOfMemory>
        ensures ok { IfOk result (λ after. with_tokens self.new (tokens_of after.now)
            ≡ with_tokens self.old (tokens_from (Quoted []) line.now)) }
        ensures few { OnOk result (self.new.open_count ≡ self.old.open_count) }
        ensures shorter { IfOk result (λ after. length after.now ≤ length line.now) }
        ensures counted { OnOk result (self.new.next ≡ self.old.next) }
    {
        match split_quoted(line) {
            Some((text, after)) => {
                self.words.push(Word::quoted(text))?;
                Ok(after)
            }
            None => {
                self.unclosed = true;
                Ok(end_of(line))
            }
        }
    }

    /// Takes a word out of quotes.
    #[tactic(auto, using(crate::proofs::Wording::tokens_of_plain))]
    fn take_plain(&mut self, line: &'a [u8]) -> Result<&'a [u8], OutOfMemory>
        requires { begins_plain line.now ≡ true }
        ensures ok { IfOk result (λ after. with_tokens self.new (tokens_of after.now) ≡ with_tokens self.old (tokens_of line.now)) }
        ensures few { OnOk result (self.new.open_count ≡ self.old.open_count) }
        ensures shorter { IfOk result (λ after. length after.now < length line.now) }
        ensures counted { OnOk result (self.new.next ≡ self.old.next) }
    {
        let (text, after) = split_plain(line);
        self.words.push(Word::plain(text))?;
        Ok(after)
    }

    /// Closes a bracket.
    fn close(&mut self)
        ensures closed { self.new ≡ with_token self.old Closing }
        ensures few { self.new.open_count ≤ self.old.open_count }
        ensures counted { self.new.next ≡ self.old.next }
    {
        if self.open_count == 0 {
            self.stray = true;
        } else {
            self.open_count -= 1;
        }
    }
}

/// The end of a line.
fn end_of(line: &[u8]) -> &[u8]
    ensures { result.now ≡ [] }
{
    line.split_at(line.len()).1
}
