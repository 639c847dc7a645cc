//! The text of a name (RFC 1035 5.1).

ghost use Rattle.std.specs.Prelude.{◌≡◌, ◌≤◌, ℕ, [], ◌∷◌, ◌++◌, List, Result, Ok, length, IfOk, IfErr, OnOk};
ghost use Rattle.dns_name.specs.declared.fault.ProtoError.{ProtoError};
ghost use Rattle.dns_name.specs.declared.name_text.Symbol.{Symbol};
ghost use Rattle.dns_name.specs.Name.{IsLabel};
ghost use Rattle.dns_name.specs.Escapes.{escape_of};
ghost use Rattle.dns_name.specs.Fault.{Tells, Gives};
ghost use Rattle.dns_name.specs.NameText.{escaped_symbol, symbol_of, symbols_of, labels_from, closed, short_name, name_of};
ghost use Rattle.dns_name.specs.NameParsing.{reading_of};

use crate::escape::escape_of;
use crate::fault::ProtoError;
use crate::name::{MAX_LABEL_LEN, MAX_WIRE_LEN, Name};
use dns_io::OutOfMemory;
use std::alloc::Global;
use std::marker::Model;

impl Name {
    /// The name that a text stands for (RFC 1035 5.1): labels with dots between them, of which a last one may be left
    /// out; a dot alone is the root. `\DDD` is the byte with this decimal number, at most 255, and `\X` is the
    /// character X, which is no digit. Other characters stand for their bytes in UTF-8.
    ///
    /// The first fault from the left counts, an empty or long label at its end. That the name is too long comes last.
    pub fn parse(alloc: Global, text: &str) -> Result<Name, ProtoError>
        ensures { Gives result (name_of text.now) }
    {
        Name::parse_bytes(alloc, text.as_bytes())
    }

    /// The name that a text stands for, as [`Name::parse`] has it, where the text is bytes in no encoding.
    #[tactic(auto, unfolding(crate::specs::NameText::name_of))]
    pub fn parse_bytes(alloc: Global, text: &[u8]) -> Result<Name, ProtoError>
        ensures { Gives result (name_of text.now) }
    {
        match text {
            [] => Err(ProtoError::LabelEmpty),
            [b'.'] => Ok(Name::root(alloc)),
            _ => read_labels(alloc, text)?.finish(),
        }
    }
}

/// What stands at a place of a text.
#[derive(Clone, Copy)]
enum Symbol {
    /// A dot, at which a label ends.
    Dot,
    /// A byte of a label.
    Byte(u8),
    /// A backslash that begins no escape.
    Bad,
}

/// The symbol that a byte of a text begins, and how many bytes of the text behind it belong to the symbol.
fn symbol_of(byte: u8, text: &[u8]) -> (Symbol, usize)
    ensures symbol { result ≡ symbol_of byte text.now }
    ensures within { result.1 ≤ length text.now }
{
    match byte {
        b'.' => (Symbol::Dot, 0),
        b'\\' => escaped_symbol(text),
        _ => (Symbol::Byte(byte), 0),
    }
}

/// The symbol of a backslash before this text.
fn escaped_symbol(text: &[u8]) -> (Symbol, usize)
    ensures symbol { result ≡ escaped_symbol (escape_of text.now) }
    ensures within { result.1 ≤ length text.now }
{
    match escape_of(text) {
        None => (Symbol::Bad, 0),
        Some((byte, behind)) => (Symbol::Byte(byte), behind),
    }
}

/// Reads the symbols of a text.
fn read_labels(alloc: Global, text: &[u8]) -> Result<Parsing, ProtoError>
    ensures ok { IfOk result (λ parsing. reading_of parsing [] ≡ labels_from [] (symbols_of 0 text.now)) }
    ensures err { IfErr result (λ e. Tells e (labels_from [] (symbols_of 0 text.now))) }
{
    let mut parsing = Parsing::new(alloc, text.len() + 2)?;
    let mut rest = text;
    while let [byte, behind @ ..] = rest {
        let (symbol, passed) = symbol_of(*byte, behind);
        parsing.take(symbol)?;
        let (_, after) = behind.split_at(passed);
        rest = after;
    }
    Ok(parsing)
}

/// A name that is being read.
#[derive(Drop)]
struct Parsing {
    /// The labels as in a message, up to the length byte and the bytes of one that did not end yet.
    wire: Vec<u8>,
    /// The place of that length byte.
    place: usize,
}

impl Model for Parsing {
    ghost use Rattle.std.specs.Prelude.{◌+◌, take, drop};
    ghost use Rattle.dns_name.specs.NameBuffer.{labels_of};
    ghost use Rattle.dns_name.specs.NameParsing.{Pieces, IsOpenAt};

    ghost Value = { Pieces };

    ghost view = { λ p. record { labels = labels_of (take p.place p.wire.items); label = drop (p.place + 1) p.wire.items } };

    ghost invariant = { λ p. IsOpenAt p.wire.items p.place };
}

impl Parsing {
    /// No label yet, in a buffer with room for this many bytes.
    fn new(alloc: Global, room: usize) -> Result<Parsing, OutOfMemory>
        ensures { IfOk result (λ p. p ≡ record { labels = []; label = [] }) }
    {
        let mut wire = Vec::with_capacity(alloc, room)?;
        wire.push(0)?;
        Ok(Parsing { wire, place: 0 })
    }

    fn take(&mut self, symbol: Symbol) -> Result<(), ProtoError>
        ensures ok { OnOk result ((rest : List Symbol) → reading_of self.new rest ≡ reading_of self.old (symbol ∷ rest)) }
        ensures err { IfErr result (λ e. (rest : List Symbol) → Tells e (reading_of self.old (symbol ∷ rest))) }
    {
        match symbol {
            Symbol::Dot => self.close(),
            Symbol::Byte(byte) => Ok(self.put(byte)?),
            Symbol::Bad => Err(ProtoError::BadEscape),
        }
    }

    fn put(&mut self, byte: u8) -> Result<(), OutOfMemory>
        ensures { OnOk result (self.new ≡ record self.old { label = self.old.label ++ byte ∷ [] }) }
    {
        self.wire.push(byte)?;
        Ok(())
    }

    /// Ends a label.
    fn close(&mut self) -> Result<(), ProtoError>
        ensures ok { OnOk result (self.new ≡ record { labels = self.old.labels ++ self.old.label ∷ []; label = [] }) }
        ensures label { OnOk result (IsLabel self.old.label) }
        ensures err { IfErr result (λ e. (rest : Result (List (List ℕ)) ProtoError) → Tells e (closed self.old.label rest)) }
    {
        let end = self.wire.len();
        let len = end - self.place - 1;
        if len == 0 {
            return Err(ProtoError::LabelEmpty);
        }
        if len > MAX_LABEL_LEN {
            return Err(ProtoError::LabelLong);
        }
        self.wire.push(0)?;
        self.wire[self.place] = len as u8;
        self.place = end;
        Ok(())
    }

    /// The name. A label that did not end, ends here.
    fn finish(self) -> Result<Name, ProtoError>
        ensures { Gives result (short_name (reading_of self [])) }
    {
        let Parsing { mut wire, place } = self.ended()?;
        if place > MAX_WIRE_LEN {
            return Err(ProtoError::NameLong);
        }
        wire.truncate(place);
        Ok(Name::from_wire(wire))
    }

    /// All labels ended. Behind a last dot there is none.
    fn ended(mut self) -> Result<Parsing, ProtoError>
        ensures ok { IfOk result (λ p. reading_of self [] ≡ Ok p.labels) }
        ensures err { IfErr result (λ e. Tells e (reading_of self [])) }
    {
        if self.wire.len() - self.place == 1 {
            return Ok(self);
        }
        match self.close() {
            Ok(()) => Ok(self),
            Err(error) => Err(error),
        }
    }
}
