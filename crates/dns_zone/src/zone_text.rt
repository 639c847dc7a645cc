//! The text of a zone: the master file format (RFC 1035 5).

ghost use Rattle.std.specs.Prelude.{◌≡◌, None, Ok, OnOk, OnErr, IfOk, IfErr};
ghost use Rattle.dns_name.specs.Name.{fold_of};
ghost use Rattle.dns_zone.specs.declared.zone_text.LineFault.TheVariants.{Kind, OutOfMemory as NoMemory};
ghost use Rattle.dns_zone.specs.declared.zone_text.ZoneTextFault.TheVariants as fault;
ghost use Rattle.dns_zone_map.specs.Zone.{IsSoFar};
ghost use Rattle.dns_presentation.specs.Entries.{entry_of};
ghost use Rattle.dns_zone.specs.ZoneText.{kind_of, kind_text, placed_entry, context_behind, finished, zone_of, TellsKind, Tells};
ghost use Rattle.dns_zone.specs.Contexts.{IsSound};

use crate::placement::{has_soa, place};
use crate::zone::Zone;
use dns_io::OutOfMemory;
use dns_name::Name;
use dns_name::name_laws::folded_names;
use dns_presentation::{Context, Entry, EntryFault, EntryKind, LogicalLine, entry_of};
use dns_zone_map::ZoneMap;
use std::alloc::{AllocFailed, Global};
use thiserror::Error;

/// About how many bytes of a zone's text there are for each name: by it the zone is laid out before its names are known.
const BYTES_A_NAME: usize = 32;

/// What is wrong with an entry of a zone's text. Where more is wrong than one thing, the first in this order counts.
#[derive(Clone, Copy, Debug, PartialEq, Eq, Error)]
pub enum ZoneTextKind {
    /// A bracket is open at the entry's end, or closes none.
    #[error("Paren")]
    Paren,
    /// A quote is not closed on its line.
    #[error("Quote")]
    Quote,
    /// A directive that is neither `$ORIGIN` nor `$TTL`.
    #[error("Directive")]
    Directive,
    /// The owner, or the name of `$ORIGIN`, is no name, or there is none.
    #[error("Name")]
    Name,
    /// The TTL is no time, or there is none to be had.
    #[error("Ttl")]
    Ttl,
    /// The type is none that may stand in a zone; also where a class other than IN stands.
    #[error("Type")]
    RecordType,
    /// The data is not of the form of its type.
    #[error("Data")]
    Data,
    /// The owner is not at the origin or below it.
    #[error("OutOfZone")]
    OutOfZone,
    /// An SOA away from the origin, a second SOA, or at the end none.
    #[error("NotOneSoa")]
    NotOneSoa,
    /// A CNAME beside another type, or two CNAMEs with different targets (RFC 1034 3.6.2).
    #[error("AliasBesideOther")]
    AliasBesideOther,
}

/// Why a text is no zone's.
#[derive(Clone, Copy, Debug, PartialEq, Eq, Error)]
pub enum ZoneTextFault {
    /// What is wrong first, and at which line, from 1; 0 where it shows at the end alone.
    #[error("line {line}: {kind}")]
    Refused { line: u64, kind: ZoneTextKind },
    /// Memory ran out.
    #[error("out of memory")]
    OutOfMemory,
}

impl From<OutOfMemory> for ZoneTextFault {
    ghost from_gives = { λ _ e. e ≡ fault.OutOfMemory };

    fn from(_error: OutOfMemory) -> ZoneTextFault {
        ZoneTextFault::OutOfMemory
    }
}

/// Reads the zone that has this origin, in small letters, from its text (RFC 1035 5).
///
/// The text has the master file format: comments, brackets, quoted words, `$ORIGIN`, `$TTL`, `@`, names below the
/// origin, owners that are repeated, TTL and class in either order or left out, times with units. The types are A, AAAA,
/// NS, CNAME, PTR, MX, SRV, SOA and TXT; any other is written `TYPEn`, with its data in hex (RFC 3597 5). Names are kept in
/// small letters. A record that is equal to an earlier one in name, type and data takes its place.
///
/// The first entry that is at fault is refused. Of one entry the kinds are tried in the order in which they are listed.
pub fn read_zone(alloc: Global, text: &[u8], origin: &Name) -> Result<Zone, ZoneTextFault>
    ensures records { IfOk result (λ zone. zone_of (fold_of origin.now) text.now ≡ Ok zone.records) }
    ensures origin { IfOk result (λ zone. zone.origin ≡ fold_of origin.now) }
    ensures fault { IfErr result (Tells (zone_of (fold_of origin.now) text.now)) }
{
    folded_names();
    let origin = origin.folded(alloc)?;
    zone_under(alloc, text, origin)
}

/// Reads the zone that has this origin, which is in small letters.
fn zone_under(alloc: Global, text: &[u8], origin: Name) -> Result<Zone, ZoneTextFault>
    requires { fold_of origin ≡ origin }
    ensures records { IfOk result (λ zone. zone_of origin text.now ≡ Ok zone.records) }
    ensures origin { IfOk result (λ zone. zone.origin ≡ origin) }
    ensures fault { IfErr result (Tells (zone_of origin text.now)) }
{
    let mut context = Context::new(origin.copy()?);
    let mut map = ZoneMap::new(alloc, origin, text.len() / BYTES_A_NAME)?;
    let mut line = LogicalLine::new(alloc)?;
    let mut rest = text;
    while let Some(after) = line.pass(rest)? {
        match take_line(alloc, &mut map, &mut context, &line) {
            Ok(()) => {}
            Err(LineFault::Kind(kind)) => {
                return Err(ZoneTextFault::Refused {
                    line: line.number(),
                    kind,
                });
            }
            Err(LineFault::OutOfMemory) => return Err(ZoneTextFault::OutOfMemory),
        }
        rest = after;
    }
    finished(map)
}

/// Why a line was not taken.
#[derive(Clone, Copy, Debug)]
pub(crate) enum LineFault {
    /// It is at fault.
    Kind(ZoneTextKind),
    /// Memory ran out.
    OutOfMemory,
}

impl From<OutOfMemory> for LineFault {
    ghost from_gives = { λ _ e. e ≡ NoMemory };

    fn from(_error: OutOfMemory) -> LineFault {
        LineFault::OutOfMemory
    }
}

impl<T: Drop> From<AllocFailed<T>> for LineFault {
    ghost from_gives = { λ _ e. e ≡ NoMemory };

    fn from(_error: AllocFailed<T>) -> LineFault {
        LineFault::OutOfMemory
    }
}

/// The zone of all records of a text.
#[tactic(auto, unfolding(crate::specs::ZoneText::finished))]
fn finished(map: ZoneMap) -> Result<Zone, ZoneTextFault>
    requires folded { fold_of map.origin ≡ map.origin }
    requires so_far { IsSoFar map.origin map.records }
    requires settled { map.before ≡ None }
    ensures records { IfOk result (λ zone. finished map.records ≡ Ok zone.records) }
    ensures origin { IfOk result (λ zone. zone.origin ≡ map.origin) }
    ensures fault { IfErr result (Tells (finished map.records)) }
{
    if !has_soa(&map) {
        return Err(ZoneTextFault::Refused {
            line: 0,
            kind: ZoneTextKind::NotOneSoa,
        });
    }
    Ok(Zone::of(map))
}

/// Adds what one logical line says.
fn take_line(
    alloc: Global,
    map: &mut ZoneMap,
    context: &mut Context,
    line: &LogicalLine<'_>,
) -> Result<(), LineFault>
    requires so_far { IsSoFar map.old.origin map.old.records }
    requires sound { IsSound context.old }
    ensures so_far { IsSoFar map.new.origin map.new.records }
    ensures sound { OnOk result (IsSound context.new) }
    ensures ok { OnOk result (placed_entry map.old.origin map.old.records (entry_of context.old line.now) ≡ Ok map.new.records) }
    ensures context { OnOk result (context.new ≡ context_behind context.old (entry_of context.old line.now)) }
    ensures origin { map.new.origin ≡ map.old.origin }
    ensures before { map.new.before ≡ map.old.before }
    ensures fault { IfErr result (TellsKind (placed_entry map.old.origin map.old.records (entry_of context.old line.now))) }
{
    match entry_of(alloc, context, line) {
        Ok(entry) => {
            context.pass(&entry)?;
            match entry {
                Entry::Nothing => Ok(()),
                Entry::Origin(_origin) => Ok(()),
                Entry::DefaultTtl(_ttl) => Ok(()),
                Entry::Record(one, _stated) => place(alloc, map, one),
            }
        }
        Err(EntryFault::Refused(kind)) => Err(LineFault::Kind(kind_of(kind))),
        Err(EntryFault::OutOfMemory) => Err(LineFault::OutOfMemory),
    }
}

/// What is wrong with an entry, as a fault of a zone's text.
pub fn kind_of(kind: EntryKind) -> ZoneTextKind
    ensures { result ≡ kind_of kind }
{
    match kind {
        EntryKind::Paren => ZoneTextKind::Paren,
        EntryKind::Quote => ZoneTextKind::Quote,
        EntryKind::Directive => ZoneTextKind::Directive,
        EntryKind::Name => ZoneTextKind::Name,
        EntryKind::Ttl => ZoneTextKind::Ttl,
        EntryKind::RecordType => ZoneTextKind::RecordType,
        EntryKind::Data => ZoneTextKind::Data,
    }
}

/// The word for what is wrong with an entry, as a refusal's line has it.
pub fn kind_text(kind: ZoneTextKind) -> &'static str
    ensures { result.now ≡ kind_text kind }
{
    match kind {
        ZoneTextKind::Paren => "Paren",
        ZoneTextKind::Quote => "Quote",
        ZoneTextKind::Directive => "Directive",
        ZoneTextKind::Name => "Name",
        ZoneTextKind::Ttl => "Ttl",
        ZoneTextKind::RecordType => "Type",
        ZoneTextKind::Data => "Data",
        ZoneTextKind::OutOfZone => "OutOfZone",
        ZoneTextKind::NotOneSoa => "NotOneSoa",
        ZoneTextKind::AliasBesideOther => "AliasBesideOther",
    }
}
