//! A batch that comes behind the rows that stand for a zone: what it makes of the zone, before it is stored.

ghost use Rattle.std.specs.Prelude.{◌≡◌, ◌++◌, List, Some, None, true, Ok, IfOk, IfErr, IfSome};
ghost use Rattle.dns_name.specs.Name.{fold_of};
ghost use Rattle.dns_keeper.specs.declared.row.Row.{Row as JournalRow};
ghost use Rattle.dns_update.specs.Replay.{Replays};
ghost use Rattle.dns_zone.specs.Replaying.{HasTaken, TellsEnd};
ghost use Rattle.dns_zone.specs.Growing.{Behind};
ghost use Rattle.dns_follow.specs.Growing.{next_of, before_of, IsKeepable, EndBehind};

use dns_keeper::Row;
use dns_name::Name;
use dns_zone::{Growing, ReplayFault, Zone, replay};
use std::alloc::Global;

/// A zone with a batch, which can be kept, and had back without it.
#[derive(Drop)]
pub(crate) enum Ready {
    /// It was changed in place.
    InPlace(Growing),
    /// It was made anew.
    Anew {
        /// With the batch.
        next: Zone,
        /// Without it, if there was one.
        before: Option<Zone>,
    },
}

/// Why a batch makes no zone, and the zone without it, if there was one.
#[derive(Drop)]
pub(crate) struct Unready {
    pub(crate) fault: ReplayFault,
    pub(crate) zone: Option<Zone>,
}

/// What the rows of a batch make of a zone of this origin, behind so many rows that stand for it (`done`), or of none.
pub(crate) fn make_ready(
    alloc: Global,
    origin: &Name,
    zone: Option<Zone>,
    rows: &Vec<Row>,
    done: u64,
) -> Result<Ready, Unready>
    requires folded { fold_of origin.now ≡ origin.now }
    requires named { IfSome zone (λ z. z.origin ≡ origin.now) }
    ensures named { IfOk result (λ ready. (next_of ready).origin ≡ origin.now) }
    ensures before { IfOk result (λ ready. before_of ready ≡ zone) }
    ensures keepable { IfOk result IsKeepable }
    ensures stands { IfOk result (λ ready. EndBehind origin.now zone done rows.now.items (Ok (next_of ready).records)) }
    ensures back { IfErr result (λ f. f.zone ≡ zone) }
    ensures fault { IfErr result (λ f. TellsEnd (EndBehind origin.now zone done rows.now.items) f.fault) }
{
    match zone {
        Some(zone) => grow(alloc, zone, rows, done),
        None => match replay(alloc, origin, rows) {
            Ok(next) => Ok(Ready::Anew { next, before: None }),
            Err(fault) => Err(Unready { fault, zone: None }),
        },
    }
}

/// What the rows of a batch make of a zone, behind so many rows that stand for it (`done`): in place, where there is no snapshot among
/// them.
fn grow(alloc: Global, zone: Zone, rows: &Vec<Row>, done: u64) -> Result<Ready, Unready>
    ensures named { IfOk result (λ ready. (next_of ready).origin ≡ zone.origin) }
    ensures before { IfOk result (λ ready. before_of ready ≡ Some zone) }
    ensures keepable { IfOk result IsKeepable }
    ensures stands { IfOk result (λ ready. Behind zone done
        (λ front. Replays zone.origin (front ++ rows.now.items) (Ok (next_of ready).records))) }
    ensures back { IfErr result (λ f. f.zone ≡ Some zone) }
    ensures fault { IfErr result (λ f. TellsEnd
        (λ end. Behind zone done (λ front. Replays zone.origin (front ++ rows.now.items) end)) f.fault) }
{
    let mut growing = match zone.growing(alloc, done) {
        Ok(growing) => growing,
        Err(zone) => {
            return Err(Unready {
                fault: ReplayFault::OutOfMemory,
                zone: Some(zone),
            });
        }
    };
    match take_all(alloc, &mut growing, rows) {
        Ok(true) => end(growing),
        Ok(false) => make_anew(alloc, growing.undo(), rows, done),
        Err(fault) => Err(Unready {
            fault,
            zone: Some(growing.undo()),
        }),
    }
}

/// Takes all rows of a batch. Tells false where there is a snapshot among them.
fn take_all(alloc: Global, growing: &mut Growing, rows: &Vec<Row>) -> Result<bool, ReplayFault>
    ensures before { growing.new.before ≡ growing.old.before }
    ensures named { growing.new.now.origin ≡ growing.old.now.origin }
    ensures taken { IfOk result (λ all. all ≡ true
        → (front : List JournalRow) → HasTaken growing.old.now front → HasTaken growing.new.now (front ++ rows.now.items)) }
    ensures fault { IfErr result (TellsEnd (λ end. (front : List JournalRow) → HasTaken growing.old.now front
        → Replays growing.old.now.origin (front ++ rows.now.items) end)) }
{
    for row in rows.as_slice() {
        match growing.take(alloc, row) {
            Ok(true) => {}
            Ok(false) => return Ok(false),
            Err(fault) => return Err(fault),
        }
    }
    Ok(true)
}

/// The zone that the rows which were taken stand for, where they leave an SOA.
fn end(growing: Growing) -> Result<Ready, Unready>
    ensures named { IfOk result (λ ready. (next_of ready).origin ≡ growing.now.origin) }
    ensures before { IfOk result (λ ready. before_of ready ≡ before_of (Ready.InPlace growing)) }
    ensures keepable { IfOk result IsKeepable }
    ensures stands { IfOk result (λ ready. (rows : List JournalRow) → HasTaken growing.now rows
        → Replays growing.now.origin rows (Ok (next_of ready).records)) }
    ensures back { IfErr result (λ f. f.zone ≡ before_of (Ready.InPlace growing)) }
    ensures fault { IfErr result (λ f. TellsEnd (λ end. (rows : List JournalRow) → HasTaken growing.now rows
        → Replays growing.now.origin rows end) f.fault) }
{
    if growing.has_soa() {
        return Ok(Ready::InPlace(growing));
    }
    let fault = growing.without_soa();
    Err(Unready {
        fault,
        zone: Some(growing.undo()),
    })
}

/// The zone with the rows of a batch, made anew.
fn make_anew(alloc: Global, zone: Zone, rows: &Vec<Row>, done: u64) -> Result<Ready, Unready>
    ensures named { IfOk result (λ ready. (next_of ready).origin ≡ zone.origin) }
    ensures before { IfOk result (λ ready. before_of ready ≡ Some zone) }
    ensures keepable { IfOk result IsKeepable }
    ensures stands { IfOk result (λ ready. Behind zone done
        (λ front. Replays zone.origin (front ++ rows.now.items) (Ok (next_of ready).records))) }
    ensures back { IfErr result (λ f. f.zone ≡ Some zone) }
    ensures fault { IfErr result (λ f. TellsEnd
        (λ end. Behind zone done (λ front. Replays zone.origin (front ++ rows.now.items) end)) f.fault) }
{
    match zone.grown(alloc, rows.as_slice(), done) {
        Ok(next) => Ok(Ready::Anew {
            next,
            before: Some(zone),
        }),
        Err(fault) => Err(Unready {
            fault,
            zone: Some(zone),
        }),
    }
}

impl Ready {
    /// The zone with the batch. Takes no memory.
    pub(crate) fn keep(self) -> Zone
        requires keepable { IsKeepable self }
        ensures { result ≡ next_of self }
    {
        match self {
            Ready::InPlace(growing) => growing.keep(),
            Ready::Anew { next, before: _ } => next,
        }
    }

    /// The zone without the batch, if there was one. Takes no memory.
    pub(crate) fn undo(self) -> Option<Zone>
        ensures { result ≡ before_of self }
    {
        match self {
            Ready::InPlace(growing) => Some(growing.undo()),
            Ready::Anew { next: _, before } => before,
        }
    }
}
