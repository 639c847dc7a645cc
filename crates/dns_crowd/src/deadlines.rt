//! The connections whose time is over are let go as time passes.

ghost use Rattle.std.specs.Prelude.{◌≡◌, ◌≤◌, ◌<◌, ◌+◌, ◌^◌, true, OnOk};
ghost use Rattle.std.specs.List.{AllByRecursion};
ghost use Rattle.dns_crowd.specs.Tables.{IsTimed, KeepsTable, ShutsSome, count_before};
ghost use Rattle.dns_crowd.specs.Turns.{Holds, IsUnasked, ShutsAll, late_numbers, timely};
ghost use Rattle.dns_edges.specs.Edges.{HasCause};
ghost use Rattle.dns_readiness.specs.Order.{IsFirstBefore};
ghost use Rattle.dns_server_core.specs.Connections.{is_within};
ghost use Rattle.dns_server_core.specs.Order.{Climbs};

use crate::crowd::Crowd;
use crate::sessions::Sessions;
use dns_io::IoFault;
use dns_readiness::Order;
use dns_server_core::Session;

/// How far in front of a moment the end of a connection's time is looked for, in milliseconds.
const FARTHEST: u64 = 1 << 47;

/// Closes those that are late by a moment, and lets them go. Looks only at those that stand in the order before it: each that is late, and
/// each that completed a message since it was put there.
pub(crate) fn close_late<C: Crowd>(
    sessions: &mut Sessions,
    order: &mut Order,
    last: u64,
    crowd: &mut C,
) -> Result<(), IoFault>
    requires moment { last < 2 ^ 47 }
    requires climbs { Climbs sessions.old }
    requires timed { AllByRecursion (IsTimed last order.old) sessions.old }
    ensures left { OnOk result (sessions.new ≡ timely last sessions.old) }
    ensures all { OnOk result (ShutsAll (C.told crowd.old).closed (C.told crowd.new).closed (late_numbers last sessions.old)) }
    ensures timed { AllByRecursion (IsTimed last order.new) sessions.new }
    ensures kept { KeepsTable sessions.old sessions.new }
    ensures unasked { OnOk result (IsUnasked (C.told crowd.old) (C.told crowd.new)) }
    ensures held { Holds (C.told crowd.old) (C.told crowd.new) }
    ensures cause { HasCause (C.told crowd.old).faults (C.told crowd.new).faults result }
{
    while let Some(number) = order.first_before(last) {
        match close_first(sessions, order, number, last, crowd) {
            Ok(()) => {}
            Err(fault) => return Err(fault),
        }
    }
    Ok(())
}

/// Closes the connection that stands first in the order, if it is late by a moment, and lets it go; else it is put off to the end of its
/// time.
fn close_first<C: Crowd>(
    sessions: &mut Sessions,
    order: &mut Order,
    number: u32,
    last: u64,
    crowd: &mut C,
) -> Result<(), IoFault>
    requires moment { last < 2 ^ 47 }
    requires climbs { Climbs sessions.old }
    requires timed { AllByRecursion (IsTimed last order.old) sessions.old }
    requires first { IsFirstBefore last number order.old }
    ensures alike { timely last sessions.new ≡ timely last sessions.old }
    ensures shut { OnOk result (ShutsSome (C.told crowd.old).closed (C.told crowd.new).closed
        (late_numbers last sessions.old) (late_numbers last sessions.new)) }
    ensures climbs { Climbs sessions.new }
    ensures timed { AllByRecursion (IsTimed last order.new) sessions.new }
    ensures kept { KeepsTable sessions.old sessions.new }
    ensures fewer { count_before last order.new < count_before last order.old }
    ensures unasked { OnOk result (IsUnasked (C.told crowd.old) (C.told crowd.new)) }
    ensures held { Holds (C.told crowd.old) (C.told crowd.new) }
    ensures cause { HasCause (C.told crowd.old).faults (C.told crowd.new).faults result }
{
    let Some(session) = sessions.find(number) else {
        order.take_first();
        return Ok(());
    };
    if session.is_within(last) {
        let until = last_within(session, last);
        order.put_off(until);
        return Ok(());
    }
    order.take_first();
    sessions.end(last, number);
    crowd.close(number)
}

/// The last moment at which a connection is within its time, behind one at which it is; one less than 2^47 milliseconds behind it, where it
/// is within its time then too. It is found by halves.
pub(crate) fn last_within(session: &Session, at: u64) -> u64
    requires moment { at < 2 ^ 47 }
    requires within { is_within session.now.limit session.now.base at ≡ true }
    ensures within { is_within session.now.limit session.now.base result ≡ true }
    ensures later { at ≤ result }
{
    let mut until = at;
    let mut step = FARTHEST / 2;
    while step > 0 {
        until = farther(session, until, step);
        step /= 2;
    }
    until
}

/// A moment that is later by a step, where a connection is within its time then too; else this one.
fn farther(session: &Session, at: u64, step: u64) -> u64
    requires fits { at + step < 2 ^ 64 }
    requires within { is_within session.now.limit session.now.base at ≡ true }
    ensures within { is_within session.now.limit session.now.base result ≡ true }
    ensures later { at ≤ result }
    ensures bound { result ≤ at + step }
{
    if session.is_within(at + step) {
        return at + step;
    }
    at
}
