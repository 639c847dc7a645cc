//! Opening the journal: with the zone of the zone text, or by the rows that it has.

ghost use Rattle.std.specs.Prelude.{◌≡◌, ◌<◌, ◌≤◌, ◌^◌, OnOk, IfOk, IfErr, true, false};
ghost use Rattle.dns_edges.specs.Edges.{around};
ghost use Rattle.dns_io.specs.Told.{Keeps};
ghost use Rattle.dns_keeper.specs.Keeping.{KeepsBatches};
ghost use Rattle.dns_name.specs.Name.{fold_of};
ghost use Rattle.dns_book.specs.Opening.{HadNoRow, HadRows};
ghost use Rattle.dns_command.specs.Steps.{ReadsZone, ReadsNoZone, Finds, SeesNoRow, FindsNot, FindsBy, FindsNotBy, FindsExample, IsExample, OpensNot};
ghost use Rattle.dns_command.specs.Parts.{IsReady, OpensBook, unopened, unkept};

use crate::command_line::Options;
use crate::example::EXAMPLE;
use crate::status::Status;
use dns_book::{Book, OpenKind};
use dns_edges::{Source, read_to_end};
use dns_generator::origin_name;
use dns_io::OutOfMemory;
use dns_keeper::{KeepFault, Keeper};
use dns_name::Name;
use dns_zone::{Zone, ZoneTextFault, read_zone};
use std::alloc::Global;

/// The greatest length of a zone text, in bytes.
const ZONE_BOUND: usize = 16_777_216;

/// How the journal is opened.
#[derive(Drop)]
pub enum Opening {
    /// It has no row, and is begun with the zone of the zone text, unless it has a batch.
    Begin(Zone),
    /// It has rows, which are to be read back.
    Recover,
}

/// Why the work went no further, and the keeper.
#[derive(Drop)]
pub struct Refusal<K> {
    /// How the program ends.
    pub status: Status,
    /// The keeper of the journal.
    pub keeper: K,
}

/// How the journal is to be opened: with the zone of the zone text, or, where it has rows, by those. The zone text is read
/// only where the journal has no row.
pub fn find_opening<Z: Source, K: Keeper>(
    alloc: Global,
    origin: &Name,
    source: &mut Z,
    keeper: &mut K,
) -> Result<Opening, Status>
    requires { fold_of origin.now ≡ origin.now }
    ensures ok { IfOk result (Finds
        (around K.keeper.told keeper.old keeper.new) (around Z.source.told source.old source.new) origin.now) }
    ensures err { IfErr result (FindsNot
        (around K.keeper.told keeper.old keeper.new) (around Z.source.told source.old source.new) origin.now) }
    ensures ready { IfOk result (λ opening. IsReady opening (K.keeper.told keeper.new).rows) }
    ensures kept { Keeps (K.keeper.told keeper.old).rows (K.keeper.told keeper.new).rows }
    ensures batches { KeepsBatches (K.keeper.told keeper.old) (K.keeper.told keeper.new) }
    ensures later { (K.keeper.told keeper.old).faults ≤ (K.keeper.told keeper.new).faults }
    ensures still { OnOk result ((K.keeper.told keeper.new).faults ≡ (K.keeper.told keeper.old).faults) }
    ensures later_source { (Z.source.told source.old).faults ≤ (Z.source.told source.new).faults }
{
    if has_rows(keeper)? {
        return Ok(Opening::Recover);
    }
    let zone = read_zone_text(alloc, origin, source)?;
    Ok(Opening::Begin(zone))
}

/// How the journal is to be opened for what the words ask: as [`find_opening`] says, or, where a list of events is drawn, with the
/// zone of that list.
pub fn find_opening_by<Z: Source, K: Keeper>(
    alloc: Global,
    options: &Options,
    source: &mut Z,
    keeper: &mut K,
) -> Result<Opening, Status>
    requires { fold_of options.now.origin ≡ options.now.origin }
    ensures ok { IfOk result (FindsBy
        (around K.keeper.told keeper.old keeper.new) (around Z.source.told source.old source.new) options.now) }
    ensures err { IfErr result (FindsNotBy
        (around K.keeper.told keeper.old keeper.new) (around Z.source.told source.old source.new) options.now) }
    ensures ready { IfOk result (λ opening. IsReady opening (K.keeper.told keeper.new).rows) }
    ensures kept { Keeps (K.keeper.told keeper.old).rows (K.keeper.told keeper.new).rows }
    ensures batches { KeepsBatches (K.keeper.told keeper.old) (K.keeper.told keeper.new) }
    ensures later { (K.keeper.told keeper.old).faults ≤ (K.keeper.told keeper.new).faults }
    ensures still { OnOk result ((K.keeper.told keeper.new).faults ≡ (K.keeper.told keeper.old).faults) }
    ensures later_source { (Z.source.told source.old).faults ≤ (Z.source.told source.new).faults }
{
    match options.drawn {
        None => find_opening(alloc, &options.origin, source, keeper),
        Some(_) => find_example(alloc, keeper),
    }
}

/// How the journal is to be opened for a drawn list of events.
fn find_example<K: Keeper>(alloc: Global, keeper: &mut K) -> Result<Opening, Status>
    ensures ok { IfOk result (FindsExample (around K.keeper.told keeper.old keeper.new)) }
    ensures err { IfErr result (SeesNoRow (around K.keeper.told keeper.old keeper.new)) }
    ensures ready { IfOk result (λ opening. IsReady opening (K.keeper.told keeper.new).rows) }
    ensures kept { Keeps (K.keeper.told keeper.old).rows (K.keeper.told keeper.new).rows }
    ensures batches { KeepsBatches (K.keeper.told keeper.old) (K.keeper.told keeper.new) }
    ensures later { (K.keeper.told keeper.old).faults ≤ (K.keeper.told keeper.new).faults }
    ensures still { OnOk result ((K.keeper.told keeper.new).faults ≡ (K.keeper.told keeper.old).faults) }
{
    if has_rows(keeper)? {
        return Ok(Opening::Recover);
    }
    match example(alloc) {
        Ok(zone) => Ok(Opening::Begin(zone)),
        Err(OutOfMemory) => Err(Status::OutOfMemory),
    }
}

/// The zone of a drawn list of events.
fn example(alloc: Global) -> Result<Zone, OutOfMemory>
    ensures { IfOk result IsExample }
{
    let origin = origin_name(alloc)?;
    match read_zone(alloc, EXAMPLE.as_bytes(), &origin) {
        Ok(zone) => Ok(zone),
        Err(ZoneTextFault::OutOfMemory) => Err(OutOfMemory),
        // The text is a zone's.
        Err(ZoneTextFault::Refused { .. }) => unreachable!(),
    }
}

/// Whether the journal has a row.
fn has_rows<K: Keeper>(keeper: &mut K) -> Result<bool, Status>
    ensures some { IfOk result (λ has. has ≡ true → HadRows (K.keeper.told keeper.old).rows (K.keeper.told keeper.new).rows) }
    ensures none { IfOk result (λ has. has ≡ false → HadNoRow (K.keeper.told keeper.old).rows (K.keeper.told keeper.new).rows) }
    ensures err { IfErr result (SeesNoRow (around K.keeper.told keeper.old keeper.new)) }
    ensures kept { Keeps (K.keeper.told keeper.old).rows (K.keeper.told keeper.new).rows }
    ensures batches { KeepsBatches (K.keeper.told keeper.old) (K.keeper.told keeper.new) }
    ensures later { (K.keeper.told keeper.old).faults ≤ (K.keeper.told keeper.new).faults }
    ensures still { OnOk result ((K.keeper.told keeper.new).faults ≡ (K.keeper.told keeper.old).faults) }
{
    match keeper.row_from(i64::MIN) {
        Ok(Some(_)) => Ok(true),
        Ok(None) => Ok(false),
        Err(fault) => Err(unkept(fault)),
    }
}

/// The status of a journal that failed, or for which memory ran out.
fn unkept(fault: KeepFault) -> Status
    ensures { result ≡ unkept fault }
{
    match fault {
        KeepFault::Failed => Status::KeeperFault,
        KeepFault::OutOfMemory => Status::OutOfMemory,
    }
}

/// The zone of a text, which is read to its end.
fn read_zone_text<Z: Source>(alloc: Global, origin: &Name, source: &mut Z) -> Result<Zone, Status>
    requires { fold_of origin.now ≡ origin.now }
    ensures ok { IfOk result (ReadsZone (around Z.source.told source.old source.new) origin.now) }
    ensures err { IfErr result (ReadsNoZone (around Z.source.told source.old source.new) origin.now) }
    ensures later { (Z.source.told source.old).faults ≤ (Z.source.told source.new).faults }
{
    let text = read_to_end(alloc, source, ZONE_BOUND)?;
    match read_zone(alloc, text.as_slice(), origin) {
        Ok(zone) => Ok(zone),
        Err(ZoneTextFault::Refused { line, kind }) => Err(Status::ZoneText { line, kind }),
        Err(ZoneTextFault::OutOfMemory) => Err(Status::OutOfMemory),
    }
}

/// Opens the journal at this moment: begins it with the zone, or reads it back.
pub fn open_book<K: Keeper>(
    alloc: Global,
    options: &Options,
    opening: Opening,
    keeper: K,
    moment: u64,
) -> Result<Book<K>, Refusal<K>>
    requires moment { moment < 2 ^ 47 }
    requires ready { IsReady opening (K.keeper.told keeper).rows }
    ensures ok { IfOk result (OpensBook K.keeper keeper options.now opening moment) }
    ensures err { IfErr result (λ fault. OpensNot
        (around K.keeper.told keeper fault.keeper) options.now.origin opening fault.status) }
    ensures kept { IfErr result (λ fault. Keeps (K.keeper.told keeper).rows (K.keeper.told fault.keeper).rows) }
{
    let allow_update = options.allow_update;
    match opening {
        Opening::Begin(zone) => match Book::begin(alloc, keeper, allow_update, moment, zone) {
            Ok(book) => Ok(book),
            Err(refused) => Err(Refusal {
                status: unopened(refused.kind),
                keeper: refused.keeper,
            }),
        },
        Opening::Recover => match Book::recover(alloc, keeper, &options.origin, allow_update) {
            Ok(book) => Ok(book),
            Err(fault) => Err(Refusal {
                status: unopened(fault.kind),
                keeper: fault.keeper,
            }),
        },
    }
}

/// The status of a journal that was not opened. A zone is there where one is asked for, so `NoZone` does not come.
fn unopened(kind: OpenKind) -> Status
    ensures { result ≡ unopened kind }
{
    match kind {
        OpenKind::Recovery { row, kind } => Status::Recovery { row, kind },
        OpenKind::KeeperFault => Status::KeeperFault,
        OpenKind::NoZone | OpenKind::OutOfMemory => Status::OutOfMemory,
    }
}
