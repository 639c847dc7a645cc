//! The entries of a zone's text: directives and records (RFC 1035 5.1; RFC 2308 4).

ghost use Rattle.std.specs.Prelude.{◌≡◌, ◌||◌, nat_lt, Some, IfOk, OnOk};
ghost use Rattle.dns_presentation.specs.declared.fault.EntryKind.TheVariants as kind;
ghost use Rattle.dns_name.specs.Name.{IsName};
ghost use Rattle.dns_presentation.specs.DataText.{word_name, only_name, only_seconds, data_of};
ghost use Rattle.dns_presentation.specs.Entries.{or_kind, begins_digit, is_directive, time_of, leading_ttl, stated_ttl, behind_class, behind_ttl, from_type, is_soa, known_ttl, needed_ttl, ttl_or, record_with, typed_record, record_from, record_of, directive_of, words_entry, entry_of, first_context, context_after, ReadsAs};

use crate::data_text::{
    WrittenType, data_of, is_word, only_name, only_seconds, type_of, word_name, word_seconds,
};
use crate::fault::{EntryFault, EntryKind, ValueFault};
use crate::logical_line::LogicalLine;
use crate::words::Word;
use dns_io::OutOfMemory;
use dns_name::Name;
use dns_wire::{Data, Record, class, record_type};
use std::alloc::Global;

/// What an entry says.
#[derive(Debug, Drop)]
pub enum Entry {
    /// Nothing: a logical line without words.
    Nothing,
    /// The origin from here on, in small letters.
    Origin(Name),
    /// The default TTL from here on (RFC 2308 4), in seconds.
    DefaultTtl(u32),
    /// A record, and the TTL that was stated for it, if one was.
    Record(Record, Option<u32>),
}

/// What the entries of a text before a place mean for those behind it.
#[derive(Debug, Drop)]
pub struct Context {
    /// The origin, in small letters.
    pub origin: Name,
    /// The last owner, if there was one.
    pub owner: Option<Name>,
    /// The default TTL, if there is one, in seconds.
    pub default_ttl: Option<u32>,
    /// The last TTL that a record stated, if one did, in seconds.
    pub stated_ttl: Option<u32>,
}

impl Context {
    /// What holds at the beginning of a text, whose origin is in small letters.
    pub fn new(origin: Name) -> Context
        ensures context { result ≡ first_context origin }
        ensures name { IsName origin }
    {
        origin.labels();
        Context {
            origin,
            owner: None,
            default_ttl: None,
            stated_ttl: None,
        }
    }

    /// Goes on behind an entry; where memory runs out, nothing is said of what stands then.
    pub fn pass(&mut self, entry: &Entry) -> Result<(), OutOfMemory>
        ensures { OnOk result (self.new ≡ context_after self.old entry.now) }
    {
        match entry {
            Entry::Nothing => {}
            Entry::Origin(origin) => {
                self.origin = origin.copy()?;
            }
            Entry::DefaultTtl(ttl) => {
                self.default_ttl = Some(*ttl);
            }
            Entry::Record(one, stated) => {
                become_owner(&mut self.owner, &one.name)?;
                self.stated_ttl = stated.or(self.stated_ttl);
            }
        }
        Ok(())
    }
}

/// Makes an owner this name, whatever it was. The room that it has is used again.
fn become_owner(owner: &mut Option<Name>, name: &Name) -> Result<(), OutOfMemory>
    ensures { OnOk result (owner.new ≡ Some name.now) }
{
    match owner {
        Some(held) => refill(held, name),
        None => {
            *owner = Some(name.copy()?);
            Ok(())
        }
    }
}

/// Makes a name another one, in the room that it has.
fn refill(held: &mut Name, name: &Name) -> Result<(), OutOfMemory>
    ensures { OnOk result (held.new ≡ name.now) }
{
    name.labels();
    held.refill(name.as_wire())
}

/// What a logical line says behind others, or what is wrong with it first.
#[tactic(auto, unfolding(crate::specs::Entries::entry_of))]
pub fn entry_of(
    alloc: Global,
    context: &Context,
    line: &LogicalLine<'_>,
) -> Result<Entry, EntryFault>
    ensures { ReadsAs (λ entry. entry) result (entry_of context.now line.now) }
{
    if line.is_stray() || line.open_count() > 0 {
        return Err(EntryFault::Refused(EntryKind::Paren));
    }
    if line.is_unclosed() {
        return Err(EntryFault::Refused(EntryKind::Quote));
    }
    words_entry(alloc, context, line.is_indented(), line.words())
}

/// What the words of a logical line say.
#[tactic(auto, unfolding(crate::specs::Entries::words_entry))]
fn words_entry(
    alloc: Global,
    context: &Context,
    indented: bool,
    words: &[Word<'_>],
) -> Result<Entry, EntryFault>
    ensures { ReadsAs (λ entry. entry) result (words_entry context.now indented words.now) }
{
    match words {
        [] => Ok(Entry::Nothing),
        [word, rest @ ..] => {
            if is_directive(word) {
                return directive_of(alloc, context, word, rest);
            }
            if indented {
                let owner = last_owner(context)?;
                return record_of(alloc, context, owner, words);
            }
            let owner = owner_of(alloc, &context.origin, word)?;
            record_of(alloc, context, owner, rest)
        }
    }
}

/// Whether a word begins with the dollar sign of a directive, out of quotes.
pub fn is_directive(word: &Word<'_>) -> bool
    ensures { result ≡ is_directive word.now }
{
    if word.is_quoted() {
        return false;
    }
    match word.text() {
        [] => false,
        [byte, ..] => *byte == b'$',
    }
}

/// What a directive says.
#[tactic(auto, unfolding(crate::specs::Entries::directive_of))]
fn directive_of(
    alloc: Global,
    context: &Context,
    directive: &Word<'_>,
    words: &[Word<'_>],
) -> Result<Entry, EntryFault>
    ensures { ReadsAs (λ entry. entry) result (directive_of context.now directive.now words.now) }
{
    if is_word(b"$ORIGIN", directive) {
        let origin = origin_of(alloc, &context.origin, words)?;
        return Ok(Entry::Origin(origin));
    }
    if is_word(b"$TTL", directive) {
        let ttl = default_ttl_of(words)?;
        return Ok(Entry::DefaultTtl(ttl));
    }
    Err(EntryFault::Refused(EntryKind::Directive))
}

/// The origin of a directive.
fn origin_of(alloc: Global, origin: &Name, words: &[Word<'_>]) -> Result<Name, EntryFault>
    ensures { ReadsAs (λ name. name) result (or_kind kind.Name (only_name origin.now words.now)) }
{
    match only_name(alloc, origin, words) {
        Ok(name) => Ok(name),
        Err(ValueFault::Refused) => Err(EntryFault::Refused(EntryKind::Name)),
        Err(ValueFault::OutOfMemory) => Err(EntryFault::OutOfMemory),
    }
}

/// The TTL of a directive.
fn default_ttl_of(words: &[Word<'_>]) -> Result<u32, EntryFault>
    ensures { ReadsAs (λ seconds. seconds) result (or_kind kind.Ttl (only_seconds words.now)) }
{
    match only_seconds(words) {
        Ok(seconds) => Ok(seconds),
        Err(ValueFault::Refused) => Err(EntryFault::Refused(EntryKind::Ttl)),
        Err(ValueFault::OutOfMemory) => Err(EntryFault::OutOfMemory),
    }
}

/// The owner that a word writes.
fn owner_of(alloc: Global, origin: &Name, word: &Word<'_>) -> Result<Name, EntryFault>
    ensures { ReadsAs (λ name. name) result (or_kind kind.Name (word_name origin.now word.now)) }
{
    match word_name(alloc, origin, word) {
        Ok(name) => Ok(name),
        Err(ValueFault::Refused) => Err(EntryFault::Refused(EntryKind::Name)),
        Err(ValueFault::OutOfMemory) => Err(EntryFault::OutOfMemory),
    }
}

/// A copy of the last owner.
fn last_owner(context: &Context) -> Result<Name, EntryFault>
    ensures { ReadsAs (λ name. name) result (or_kind kind.Name context.now.owner) }
{
    match &context.owner {
        Some(owner) => Ok(owner.copy()?),
        None => Err(EntryFault::Refused(EntryKind::Name)),
    }
}

/// The record of an owner, of the words behind it.
#[tactic(auto, unfolding(crate::specs::Entries::record_of))]
fn record_of(
    alloc: Global,
    context: &Context,
    owner: Name,
    words: &[Word<'_>],
) -> Result<Entry, EntryFault>
    ensures { ReadsAs (λ entry. entry) result (record_of context.now owner words.now) }
{
    let stated = stated_ttl(words)?;
    record_from(alloc, context, owner, stated, from_type(words))
}

/// The record of an owner, of words that begin with the type.
fn record_from(
    alloc: Global,
    context: &Context,
    owner: Name,
    stated: Option<u32>,
    words: &[Word<'_>],
) -> Result<Entry, EntryFault>
    ensures { ReadsAs (λ entry. entry) result (record_from context.now owner stated words.now) }
{
    match words {
        [] => typed_record(alloc, context, owner, stated, None, words),
        [word, rest @ ..] => typed_record(alloc, context, owner, stated, type_of(word), rest),
    }
}

/// The record of an owner and a type.
#[tactic(auto, unfolding(crate::specs::Entries::typed_record))]
fn typed_record(
    alloc: Global,
    context: &Context,
    owner: Name,
    stated: Option<u32>,
    written: Option<WrittenType>,
    words: &[Word<'_>],
) -> Result<Entry, EntryFault>
    ensures { ReadsAs (λ entry. entry) result (typed_record context.now owner stated written words.now) }
{
    let ttl = needed_ttl(known_ttl(context, stated), written)?;
    record_with(alloc, context, owner, stated, ttl, written, words)
}

/// The record of an owner, a type and a TTL.
#[tactic(auto, unfolding(crate::specs::Entries::record_with))]
fn record_with(
    alloc: Global,
    context: &Context,
    owner: Name,
    stated: Option<u32>,
    ttl: Option<u32>,
    written: Option<WrittenType>,
    words: &[Word<'_>],
) -> Result<Entry, EntryFault>
    ensures { ReadsAs (λ entry. entry) result (record_with context.now owner stated ttl written words.now) }
{
    let Some(written) = written else {
        return Err(EntryFault::Refused(EntryKind::RecordType));
    };
    let rdata = entry_data(alloc, &context.origin, written, words)?;
    let ttl = ttl_or(ttl, &rdata);
    let one = Record {
        name: owner,
        rtype: written.number,
        class: class::IN,
        ttl,
        rdata,
    };
    Ok(Entry::Record(one, stated))
}

/// The data of an entry.
fn entry_data(
    alloc: Global,
    origin: &Name,
    written: WrittenType,
    words: &[Word<'_>],
) -> Result<Data, EntryFault>
    ensures { ReadsAs (λ rdata. rdata) result (or_kind kind.Data (data_of origin.now written words.now)) }
{
    match data_of(alloc, origin, written, words) {
        Ok(rdata) => Ok(rdata),
        Err(ValueFault::Refused) => Err(EntryFault::Refused(EntryKind::Data)),
        Err(ValueFault::OutOfMemory) => Err(EntryFault::OutOfMemory),
    }
}

/// Whether a text begins with a digit.
fn begins_digit(text: &[u8]) -> bool
    ensures { result ≡ begins_digit text.now }
{
    match text {
        [] => false,
        [byte, ..] => *byte >= b'0' && *byte <= b'9',
    }
}

/// The TTL that a word states.
#[tactic(auto, unfolding(crate::specs::Entries::time_of))]
fn time_of(word: &Word<'_>) -> Result<Option<u32>, EntryFault>
    ensures { ReadsAs (λ ttl. ttl) result (time_of word.now) }
{
    match word_seconds(word) {
        Ok(seconds) => Ok(Some(seconds)),
        Err(ValueFault::Refused) => Err(EntryFault::Refused(EntryKind::Ttl)),
        Err(ValueFault::OutOfMemory) => Err(EntryFault::OutOfMemory),
    }
}

/// The TTL that words begin with.
fn leading_ttl(words: &[Word<'_>]) -> Result<Option<u32>, EntryFault>
    ensures { ReadsAs (λ ttl. ttl) result (leading_ttl words.now) }
{
    match words {
        [] => Ok(None),
        [word, ..] => {
            if begins_digit(word.text()) {
                return time_of(word);
            }
            Ok(None)
        }
    }
}

/// The TTL that stands before the type, before or behind the class, in the words behind an owner; a word there that begins
/// with a digit and is no time is at fault (`Ttl`).
pub fn stated_ttl(words: &[Word<'_>]) -> Result<Option<u32>, EntryFault>
    ensures { ReadsAs (λ ttl. ttl) result (stated_ttl words.now) }
{
    match words {
        [] => Ok(None),
        [word, rest @ ..] => {
            if is_word(b"IN", word) {
                return leading_ttl(rest);
            }
            leading_ttl(words)
        }
    }
}

/// Words without a class before them.
fn behind_class<'a, 'b>(words: &'b [Word<'a>]) -> &'b [Word<'a>]
    ensures { result.now ≡ behind_class words.now }
{
    match words {
        [] => words,
        [word, rest @ ..] => {
            if is_word(b"IN", word) {
                return rest;
            }
            words
        }
    }
}

/// Words without a TTL before them.
fn behind_ttl<'a, 'b>(words: &'b [Word<'a>]) -> &'b [Word<'a>]
    ensures { result.now ≡ behind_ttl words.now }
{
    match words {
        [] => words,
        [word, rest @ ..] => {
            if begins_digit(word.text()) {
                return rest;
            }
            words
        }
    }
}

/// The words from the type on.
fn from_type<'a, 'b>(words: &'b [Word<'a>]) -> &'b [Word<'a>]
    ensures { result.now ≡ from_type words.now }
{
    match words {
        [] => words,
        [word, rest @ ..] => {
            if is_word(b"IN", word) {
                return behind_ttl(rest);
            }
            behind_class(behind_ttl(words))
        }
    }
}

/// Whether a type is SOA.
fn is_soa(written: Option<WrittenType>) -> bool
    ensures { result ≡ is_soa written }
{
    match written {
        None => false,
        Some(written) => written.number == record_type::SOA,
    }
}

/// The stated TTL, or else the default one, or else the last that was stated.
fn known_ttl(context: &Context, stated: Option<u32>) -> Option<u32>
    ensures { result ≡ known_ttl context.now stated }
{
    stated.or(context.default_ttl.or(context.stated_ttl))
}

/// The TTL that a record of this type is to have.
fn needed_ttl(ttl: Option<u32>, written: Option<WrittenType>) -> Result<Option<u32>, EntryFault>
    ensures { ReadsAs (λ ttl. ttl) result (needed_ttl ttl written) }
{
    match ttl {
        Some(seconds) => Ok(Some(seconds)),
        None => {
            if is_soa(written) {
                return Ok(None);
            }
            Err(EntryFault::Refused(EntryKind::Ttl))
        }
    }
}

/// The TTL, or else that of an SOA: its minimum.
fn ttl_or(ttl: Option<u32>, rdata: &Data) -> u32
    ensures { result ≡ ttl_or ttl rdata.now }
{
    match ttl {
        Some(seconds) => seconds,
        None => match rdata {
            Data::Soa { minimum, .. } => *minimum,
            _ => 0,
        },
    }
}
