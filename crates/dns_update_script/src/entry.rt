//! One entry of a zone's text that stands alone (RFC 1035 5.1).

ghost use Rattle.std.specs.Prelude.{◌≡◌, Ok, IfOk, IfErr};
ghost use Rattle.dns_name.specs.Name.{fold_of};
ghost use Rattle.dns_presentation.specs.Entries.{ReadsAs};
ghost use Rattle.dns_update_script.specs.Entry.{alone, broken, begins_directive, states_none, lacks_ttl, timed, first_wrong, line_entry, text_entry, entry_in, TellsEntry};

use dns_io::OutOfMemory;
use dns_name::Name;
use dns_presentation::{
    Context, Entry, EntryFault, EntryKind, LogicalLine, Word, entry_of, is_directive, stated_ttl,
};
use dns_wire::Record;
use dns_zone::{ZoneTextFault, ZoneTextKind, kind_of};
use std::alloc::Global;

/// Reads the record that a text stands for, which is one entry of a zone's text on one logical line, with an owner
/// (RFC 1035 5.1). A name without a last dot stands below this origin, in small letters, as all names of the record are.
///
/// Where no TTL stands in the entry it is this one, in seconds; where there is none the entry is at fault (`Ttl`), that of an
/// SOA too. A text without an entry, a directive, and a text of more than one logical line are at fault (`Directive`). Faults are told at line 1, the first of their kinds in the
/// order in which `ZoneTextKind` lists them.
pub fn read_entry(
    alloc: Global,
    text: &[u8],
    origin: &Name,
    ttl: Option<u32>,
) -> Result<Record, ZoneTextFault>
    ensures entry { IfOk result (λ r. entry_in (fold_of origin.now) ttl text.now ≡ Ok r) }
    ensures fault { IfErr result (TellsEntry (entry_in (fold_of origin.now) ttl text.now)) }
{
    let origin = origin.folded(alloc)?;
    match text_entry(alloc, text, origin, ttl) {
        Ok(one) => Ok(one),
        Err(EntryFault::Refused(kind)) => Err(ZoneTextFault::Refused {
            line: 1,
            kind: kind_of(kind),
        }),
        Err(EntryFault::OutOfMemory) => Err(ZoneTextFault::OutOfMemory),
    }
}

/// The record of a text's one logical line.
#[tactic(auto, unfolding(crate::specs::Entry::text_entry))]
fn text_entry(
    alloc: Global,
    text: &[u8],
    origin: Name,
    ttl: Option<u32>,
) -> Result<Record, EntryFault>
    ensures { ReadsAs (λ r. r) result (text_entry origin ttl text.now) }
{
    let mut line = LogicalLine::new(alloc)?;
    let Some(rest) = line.pass(text)? else {
        return Err(EntryFault::Refused(EntryKind::Directive));
    };
    match rest {
        [] => line_entry(alloc, origin, ttl, &line),
        [_, ..] => Err(EntryFault::Refused(broken(&line))),
    }
}

/// What is wrong with a text that goes on behind its first logical line.
fn broken(line: &LogicalLine<'_>) -> EntryKind
    ensures { result ≡ broken line.now }
{
    if line.is_stray() || line.open_count() > 0 {
        return EntryKind::Paren;
    }
    if line.is_unclosed() {
        return EntryKind::Quote;
    }
    EntryKind::Directive
}

/// Whether words begin with that of a directive.
fn begins_directive(words: &[Word<'_>]) -> bool
    ensures { result ≡ begins_directive words.now }
{
    match words {
        [] => false,
        [word, ..] => is_directive(word),
    }
}

/// The record of a logical line.
fn line_entry(
    alloc: Global,
    origin: Name,
    ttl: Option<u32>,
    line: &LogicalLine<'_>,
) -> Result<Record, EntryFault>
    ensures { ReadsAs (λ r. r) result (line_entry origin ttl line.now) }
{
    let directive = begins_directive(line.words());
    let lacks = lacks_ttl(ttl, line.words())?;
    let context = alone(origin, ttl);
    match entry_of(alloc, &context, line) {
        Ok(Entry::Record(one, _stated)) => timed(lacks, one),
        Ok(Entry::Nothing) => Err(EntryFault::Refused(EntryKind::Directive)),
        Ok(Entry::Origin(_origin)) => Err(EntryFault::Refused(EntryKind::Directive)),
        Ok(Entry::DefaultTtl(_ttl)) => Err(EntryFault::Refused(EntryKind::Directive)),
        Err(EntryFault::Refused(kind)) => Err(EntryFault::Refused(first_wrong(
            directive, lacks, kind,
        ))),
        Err(EntryFault::OutOfMemory) => Err(EntryFault::OutOfMemory),
    }
}

/// Where an entry stands alone: below this origin, with this TTL to fall back on.
fn alone(origin: Name, ttl: Option<u32>) -> Context
    ensures { result ≡ alone origin ttl }
{
    Context {
        origin,
        owner: None,
        default_ttl: ttl,
        stated_ttl: None,
    }
}

/// Whether an entry with these words has neither a TTL to fall back on nor one of its own.
fn lacks_ttl(ttl: Option<u32>, words: &[Word<'_>]) -> Result<bool, OutOfMemory>
    ensures { IfOk result (λ lacks. lacks ≡ lacks_ttl ttl words.now) }
{
    match ttl {
        Some(_ttl) => Ok(false),
        None => states_none(words),
    }
}

/// Whether no TTL stands before the type in an entry with these words.
fn states_none(words: &[Word<'_>]) -> Result<bool, OutOfMemory>
    ensures { IfOk result (λ none. none ≡ states_none words.now) }
{
    match words {
        [] => Ok(true),
        [_owner, rest @ ..] => match stated_ttl(rest) {
            Ok(None) => Ok(true),
            Ok(Some(_ttl)) => Ok(false),
            Err(EntryFault::Refused(_kind)) => Ok(false),
            Err(EntryFault::OutOfMemory) => Err(OutOfMemory),
        },
    }
}

/// A record, which is to have a TTL even where it is an SOA.
fn timed(lacks: bool, one: Record) -> Result<Record, EntryFault>
    ensures { ReadsAs (λ r. r) result (timed lacks one) }
{
    if lacks {
        return Err(EntryFault::Refused(EntryKind::Ttl));
    }
    Ok(one)
}

/// What is wrong first: that a line is a directive comes before what is wrong with it, and that the TTL is lacking before what
/// is wrong with the data.
fn first_wrong(directive: bool, lacks: bool, kind: EntryKind) -> EntryKind
    ensures { result ≡ first_wrong directive lacks kind }
{
    match kind {
        EntryKind::Name => {
            if directive {
                return EntryKind::Directive;
            }
            EntryKind::Name
        }
        EntryKind::Ttl => {
            if directive {
                return EntryKind::Directive;
            }
            EntryKind::Ttl
        }
        EntryKind::Data => {
            if lacks {
                return EntryKind::Ttl;
            }
            EntryKind::Data
        }
        EntryKind::Paren | EntryKind::Quote | EntryKind::Directive | EntryKind::RecordType => kind,
    }
}
