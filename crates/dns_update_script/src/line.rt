//! What a line of a script says (RFC 2136 2.4, 2.5).

ghost use Rattle.std.specs.Prelude.{◌≡◌};
ghost use Rattle.dns_update_script.specs.Words.{words_of, from_word};
ghost use Rattle.dns_update_script.specs.Line.{name_in, type_in, bare, of_name, of_set, entry_with, of_record, name_is, set_exists, set_lacks, prerequisite_of, added, deleted, change_of, begun, zone_line, send_line, command_of, is_comment, line_of, Gives};

use crate::entry::read_entry;
use crate::fault::{LineFault, ScriptKind};
use crate::words::{Words, from_word, split_word, words_of};
use dns_name::{Name, ProtoError};
use dns_presentation::{Word, type_of};
use dns_wire::{Data, Record, class, record_type};
use dns_zone::ZoneTextFault;
use std::alloc::Global;

/// What a line says.
#[derive(Debug, Drop)]
pub(crate) enum Line {
    /// Nothing: it has no words, or begins with a semicolon.
    Nothing,
    /// The zone of the messages from here on.
    Zone(Name),
    /// A prerequisite of the next message (RFC 2136 2.4).
    Prerequisite(Record),
    /// A change that the next message asks for (RFC 2136 2.5).
    Change(Record),
    /// The message ends here.
    Send,
}

/// What a line says, or what is wrong with it.
pub(crate) fn line_of(alloc: Global, line: &[u8]) -> Result<Line, LineFault>
    ensures { Gives result (line_of line.now) }
{
    if is_comment(line) {
        return Ok(Line::Nothing);
    }
    match split_word(line) {
        Some((word, rest)) => command_of(alloc, word, rest),
        None => Ok(Line::Nothing),
    }
}

fn is_comment(line: &[u8]) -> bool
    ensures { result ≡ is_comment line.now }
{
    match line {
        [] => false,
        [byte, ..] => *byte == b';',
    }
}

/// What the word that begins a line and the line behind it say.
#[tactic(auto, unfolding(crate::specs::Line::command_of))]
fn command_of(alloc: Global, word: &[u8], rest: &[u8]) -> Result<Line, LineFault>
    ensures { Gives result (command_of word.now rest.now) }
{
    if word == b"zone".as_slice() {
        return zone_line(alloc, rest);
    }
    if word == b"send".as_slice() {
        return send_line(rest);
    }
    if word == b"prereq".as_slice() {
        return Ok(Line::Prerequisite(begun_prerequisite(alloc, rest)?));
    }
    if word == b"update".as_slice() {
        return Ok(Line::Change(begun_change(alloc, rest)?));
    }
    Ok(Line::Change(change_of(alloc, word, rest)?))
}

/// The line of a zone, behind its first word.
fn zone_line(alloc: Global, rest: &[u8]) -> Result<Line, LineFault>
    ensures { Gives result (zone_line (words_of rest.now)) }
{
    match words_of(rest) {
        Words::One(name) => Ok(Line::Zone(name_in(alloc, name)?)),
        Words::None => Err(LineFault::Kind(ScriptKind::Word)),
        Words::Two(_, _) => Err(LineFault::Kind(ScriptKind::Word)),
        Words::More(_, _, _, _) => Err(LineFault::Kind(ScriptKind::Word)),
    }
}

/// The line that ends a message, behind its first word.
fn send_line(rest: &[u8]) -> Result<Line, LineFault>
    ensures { Gives result (send_line (words_of rest.now)) }
{
    match split_word(rest) {
        None => Ok(Line::Send),
        Some(_) => Err(LineFault::Kind(ScriptKind::Word)),
    }
}

/// A prerequisite, behind the word that says that it is one.
fn begun_prerequisite(alloc: Global, rest: &[u8]) -> Result<Record, LineFault>
    ensures { Gives result (begun prerequisite_of (words_of rest.now) rest.now) }
{
    match split_word(rest) {
        None => Err(LineFault::Kind(ScriptKind::Word)),
        Some((word, behind)) => prerequisite_of(alloc, word, behind),
    }
}

/// A change, behind the word that says that it is one.
fn begun_change(alloc: Global, rest: &[u8]) -> Result<Record, LineFault>
    ensures { Gives result (begun change_of (words_of rest.now) rest.now) }
{
    match split_word(rest) {
        None => Err(LineFault::Kind(ScriptKind::Word)),
        Some((word, behind)) => change_of(alloc, word, behind),
    }
}

/// A prerequisite (RFC 2136 2.4), by its kind and the line behind that.
#[tactic(auto, unfolding(crate::specs::Line::prerequisite_of))]
fn prerequisite_of(alloc: Global, word: &[u8], rest: &[u8]) -> Result<Record, LineFault>
    ensures { Gives result (prerequisite_of word.now rest.now) }
{
    if word == b"yxdomain".as_slice() {
        return name_is(alloc, class::ANY, rest);
    }
    if word == b"nxdomain".as_slice() {
        return name_is(alloc, class::NONE, rest);
    }
    if word == b"yxrrset".as_slice() {
        return set_exists(alloc, rest);
    }
    if word == b"nxrrset".as_slice() {
        return set_lacks(alloc, rest);
    }
    Err(LineFault::Kind(ScriptKind::Word))
}

/// A name is in use, or is not (RFC 2136 2.4.4, 2.4.5).
fn name_is(alloc: Global, class: u16, rest: &[u8]) -> Result<Record, LineFault>
    ensures { Gives result (name_is class (words_of rest.now)) }
{
    match words_of(rest) {
        Words::One(name) => of_name(alloc, class, name),
        Words::None => Err(LineFault::Kind(ScriptKind::Word)),
        Words::Two(_, _) => Err(LineFault::Kind(ScriptKind::Word)),
        Words::More(_, _, _, _) => Err(LineFault::Kind(ScriptKind::Word)),
    }
}

/// A set of records exists, whatever it holds, or with this record (RFC 2136 2.4.1, 2.4.2).
fn set_exists(alloc: Global, rest: &[u8]) -> Result<Record, LineFault>
    ensures { Gives result (set_exists (words_of rest.now) (from_word rest.now)) }
{
    match words_of(rest) {
        Words::Two(name, other) => of_set(alloc, class::ANY, name, other),
        Words::More(_, _, _, _) => of_record(alloc, class::IN, from_word(rest)),
        Words::None => Err(LineFault::Kind(ScriptKind::Word)),
        Words::One(_) => Err(LineFault::Kind(ScriptKind::Word)),
    }
}

/// A set of records does not exist (RFC 2136 2.4.3).
fn set_lacks(alloc: Global, rest: &[u8]) -> Result<Record, LineFault>
    ensures { Gives result (set_lacks (words_of rest.now)) }
{
    match words_of(rest) {
        Words::Two(name, other) => of_set(alloc, class::NONE, name, other),
        Words::None => Err(LineFault::Kind(ScriptKind::Word)),
        Words::One(_) => Err(LineFault::Kind(ScriptKind::Word)),
        Words::More(_, _, _, _) => Err(LineFault::Kind(ScriptKind::Word)),
    }
}

/// A change (RFC 2136 2.5), by its kind and the line behind that.
#[tactic(auto, unfolding(crate::specs::Line::change_of))]
fn change_of(alloc: Global, word: &[u8], rest: &[u8]) -> Result<Record, LineFault>
    ensures { Gives result (change_of word.now rest.now) }
{
    if word == b"add".as_slice() {
        return added(alloc, rest);
    }
    if word == b"delete".as_slice() {
        return deleted(alloc, rest);
    }
    Err(LineFault::Kind(ScriptKind::Word))
}

/// A record is added (RFC 2136 2.5.1).
fn added(alloc: Global, rest: &[u8]) -> Result<Record, LineFault>
    ensures { Gives result (added (words_of rest.now) (from_word rest.now)) }
{
    match split_word(rest) {
        None => Err(LineFault::Kind(ScriptKind::Word)),
        Some(_) => entry_with(alloc, None, from_word(rest)),
    }
}

/// All records of a name, those of a type, or one record are deleted (RFC 2136 2.5.3, 2.5.2, 2.5.4).
fn deleted(alloc: Global, rest: &[u8]) -> Result<Record, LineFault>
    ensures { Gives result (deleted (words_of rest.now) (from_word rest.now)) }
{
    match words_of(rest) {
        Words::None => Err(LineFault::Kind(ScriptKind::Word)),
        Words::One(name) => of_name(alloc, class::ANY, name),
        Words::Two(name, other) => of_set(alloc, class::ANY, name, other),
        Words::More(_, _, _, _) => of_record(alloc, class::NONE, from_word(rest)),
    }
}

/// All records of a name, whatever their type.
#[tactic(auto, unfolding(crate::specs::Line::of_name))]
fn of_name(alloc: Global, class: u16, word: &[u8]) -> Result<Record, LineFault>
    ensures { Gives result (of_name class word.now) }
{
    let name = name_in(alloc, word)?;
    Ok(bare(class, record_type::ANY, name))
}

/// All records of a name and a type.
#[tactic(auto, unfolding(crate::specs::Line::of_set))]
fn of_set(alloc: Global, class: u16, word: &[u8], other: &[u8]) -> Result<Record, LineFault>
    ensures { Gives result (of_set class word.now other.now) }
{
    let name = name_in(alloc, word)?;
    let number = type_in(other)?;
    Ok(bare(class, number, name))
}

/// The record of an entry, in this class and with the TTL 0.
#[tactic(auto, unfolding(crate::specs::Line::of_record))]
fn of_record(alloc: Global, class: u16, text: &[u8]) -> Result<Record, LineFault>
    ensures { Gives result (of_record class text.now) }
{
    let one = entry_with(alloc, Some(0), text)?;
    Ok(Record {
        name: one.name,
        rtype: one.rtype,
        class,
        ttl: 0,
        rdata: one.rdata,
    })
}

/// The record of an entry, whose names without a last dot stand below the root, with this TTL to fall back on.
fn entry_with(alloc: Global, ttl: Option<u32>, text: &[u8]) -> Result<Record, LineFault>
    ensures { Gives result (entry_with ttl text.now) }
{
    match read_entry(alloc, text, &Name::root(alloc), ttl) {
        Ok(one) => Ok(one),
        Err(ZoneTextFault::Refused { kind, .. }) => Err(LineFault::Kind(ScriptKind::Entry(kind))),
        Err(ZoneTextFault::OutOfMemory) => Err(LineFault::OutOfMemory),
    }
}

/// A record without data.
fn bare(class: u16, rtype: u16, name: Name) -> Record
    ensures { result ≡ bare class rtype name }
{
    Record {
        name,
        rtype,
        class,
        ttl: 0,
        rdata: Data::Empty,
    }
}

/// The name that a word writes, its letters as they were written.
fn name_in(alloc: Global, word: &[u8]) -> Result<Name, LineFault>
    ensures { Gives result (name_in word.now) }
{
    match str::from_utf8(word) {
        Ok(text) => match Name::parse(alloc, text) {
            Ok(name) => Ok(name),
            Err(ProtoError::OutOfMemory) => Err(LineFault::OutOfMemory),
            Err(_) => Err(LineFault::Kind(ScriptKind::Name)),
        },
        Err(_) => Err(LineFault::Kind(ScriptKind::Name)),
    }
}

/// The type that a word writes, by its name or its number (RFC 3597 5).
fn type_in(word: &[u8]) -> Result<u16, LineFault>
    ensures { Gives result (type_in word.now) }
{
    match type_of(&Word::plain(word)) {
        Some(written) => Ok(written.number),
        None => Err(LineFault::Kind(ScriptKind::RecordType)),
    }
}
