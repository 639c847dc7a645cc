//! How one frame is received.

ghost use Rattle.std.specs.Prelude.{◌≡◌, ◌≤◌, ◌<◌, ◌+◌, ◌*◌, ℕ, List, length, get_or, take, drop, IfOk, IfErr, IfSome, IfNone, OnErr};
ghost use Rattle.dns_io.specs.Told.{EndsAt, Keeps, Takes};
ghost use Rattle.dns_update_client.specs.Exchange.{IsInputFault, StopsReceiving, TakesUntil};
ghost use Rattle.dns_update_client.specs.Faults.{HasReadCause};
ghost use Rattle.dns_update_client.specs.Framed.{frame, GivesUpTo};

use crate::submit_fault::SubmitFault;
use dns_edges::Source;
use std::alloc::Global;

/// The bytes of the next frame, without their length. No byte behind it is taken.
pub(crate) fn receive<R: Source>(
    alloc: Global,
    number: u64,
    input: &mut R,
) -> Result<Vec<u8>, SubmitFault>
    ensures ok { IfOk result (λ bytes. Takes (R.source.told input.old).left (R.source.told input.new).left (frame bytes.items)) }
    ensures short { IfOk result (λ bytes. length bytes.items ≤ 65535) }
    ensures err { IfErr result (λ fault. (got : List ℕ) × StopsReceiving number got fault
        × TakesUntil fault (R.source.told input.old).left (R.source.told input.new).left got) }
    ensures cause { HasReadCause (R.source.told input.old).faults (R.source.told input.new).faults result }
{
    let prefix = read_up_to(alloc, input, 2)?;
    let Some(count) = said_length(prefix.as_slice()) else {
        return Err(SubmitFault::Ended { message: number });
    };
    match read_up_to(alloc, input, count) {
        Err(fault) => Err(fault),
        Ok(bytes) => {
            if bytes.len() < count {
                return Err(SubmitFault::Ended { message: number });
            }
            Ok(bytes)
        }
    }
}

/// The length that two bytes say; `None` where there are fewer.
fn said_length(prefix: &[u8]) -> Option<usize>
    requires { length prefix.now ≤ 2 }
    ensures fits { (i : ℕ) → get_or prefix.now i 0 < 256 }
    ensures two { IfSome result (λ count. length prefix.now ≡ 2) }
    ensures said { IfSome result (λ count. count ≡ get_or prefix.now 0 0 * 256 + get_or prefix.now 1 0) }
    ensures bound { IfSome result (λ count. count ≤ 65535) }
    ensures short { IfNone result (length prefix.now < 2) }
{
    let [high, low] = prefix else {
        return None;
    };
    Some(usize::from(*high) * 256 + usize::from(*low))
}

/// Reads until there are so many bytes, or the input ends.
fn read_up_to<R: Source>(alloc: Global, input: &mut R, count: usize) -> Result<Vec<u8>, SubmitFault>
    ensures given { IfOk result (λ bytes. GivesUpTo count (R.source.told input.old).left (R.source.told input.new).left bytes.items) }
    ensures within { IfOk result (λ bytes. length bytes.items ≤ count) }
    ensures part { OnErr result ((got : List ℕ) × (length got ≤ count)
        × Takes (R.source.told input.old).left (R.source.told input.new).left got) }
    ensures kind { IfErr result IsInputFault }
    ensures cause { HasReadCause (R.source.told input.old).faults (R.source.told input.new).faults result }
{
    let mut bytes = Vec::new(alloc);
    bytes.resize(count, 0)?;
    let filled = fill(input, bytes.as_mut_slice())?;
    bytes.truncate(filled);
    Ok(bytes)
}

/// Reads until the room is full, or the input ends, and tells how many bytes came.
fn fill<R: Source>(input: &mut R, room: &mut [u8]) -> Result<usize, SubmitFault>
    ensures within { IfOk result (λ count. count ≤ length room.new) }
    ensures given { IfOk result (λ count.
        GivesUpTo (length room.new) (R.source.told input.old).left (R.source.told input.new).left (take count room.new)) }
    ensures part { OnErr result ((got : List ℕ) × (length got ≤ length room.old)
        × Takes (R.source.told input.old).left (R.source.told input.new).left got) }
    ensures kind { IfErr result IsInputFault }
    ensures cause { HasReadCause (R.source.told input.old).faults (R.source.told input.new).faults result }
{
    let mut filled = 0;
    while filled < room.len() {
        let count = read_behind(input, room, filled)?;
        if count == 0 {
            return Ok(filled);
        }
        filled += count;
    }
    Ok(filled)
}

/// Reads into the room behind the first `start` bytes.
fn read_behind<R: Source>(
    input: &mut R,
    room: &mut [u8],
    start: usize,
) -> Result<usize, SubmitFault>
    requires { start < length room.old }
    ensures before { take start room.new ≡ take start room.old }
    ensures count { IfOk result (λ count. start + count ≤ length room.new) }
    ensures given { IfOk result (λ count.
        Takes (R.source.told input.old).left (R.source.told input.new).left (take count (drop start room.new))) }
    ensures end { IfOk result (λ count. EndsAt (R.source.told input.old).left (R.source.told input.new).left count) }
    ensures kept { OnErr result (Keeps (R.source.told input.old).left (R.source.told input.new).left) }
    ensures kind { IfErr result IsInputFault }
    ensures cause { HasReadCause (R.source.told input.old).faults (R.source.told input.new).faults result }
{
    match input.read(&mut room[start..]) {
        Ok(count) => Ok(count),
        Err(fault) => Err(SubmitFault::of_input(fault)),
    }
}
