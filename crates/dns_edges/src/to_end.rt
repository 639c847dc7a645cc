//! A source that is read to its end, or up to a bound.

ghost use Rattle.std.specs.Prelude.{◌≡◌, ◌⊎◌, ◌<◌, ◌≤◌, ◌+◌, length, take, drop, ◌^◌, vec_len, IfOk, IfErr, OnOk, OnErr, IsErrOf};
ghost use Rattle.dns_io.specs.Told.{Rose, Keeps, Takes, EndsAt, WasRead, WasLonger, TakesFront};
ghost use Rattle.dns_edges.specs.Edges.{HasCause};
ghost use Rattle.dns_edges.specs.declared.to_end.ReadFault.TheVariants.{OutOfMemory as NoMemory};

use crate::source::Source;
use dns_io::IoFault;
use std::alloc::Global;

/// Why a source was not read to its end.
#[derive(Clone, Copy, Debug, PartialEq, Eq)]
pub enum ReadFault {
    /// A read failed: the source's count of faults rose, or stands at its last value. At most `bound` bytes were taken.
    Failed,
    /// The source had more bytes than the bound, and exactly one byte more than the bound was taken.
    TooLong,
    /// Memory ran out. At most `bound` bytes were taken.
    OutOfMemory,
}

/// The least room that a read is given, as far as the bound allows, in bytes.
const ROOM: usize = 8192;

/// All that a source has left, where that is at most `bound` bytes. It reads on until the end is told, or until one byte
/// more than the bound is read.
pub fn read_to_end<S: Source>(
    alloc: Global,
    source: &mut S,
    bound: usize,
) -> Result<Vec<u8>, ReadFault>
    requires { bound < 2 ^ 63 }
    ensures all { IfOk result (λ bytes. WasRead (S.source.told source.old).left
        (S.source.told source.new).left (λ text. text ≡ bytes.items)) }
    ensures short { IfOk result (λ bytes. length bytes.items ≤ bound) }
    ensures long { IsErrOf result ReadFault.TooLong → WasLonger (S.source.told source.old).left (S.source.told source.new).left bound }
    ensures failed { IsErrOf result ReadFault.Failed → TakesFront (S.source.told source.old).left (S.source.told source.new).left bound }
    ensures refused { IsErrOf result ReadFault.OutOfMemory
        → TakesFront (S.source.told source.old).left (S.source.told source.new).left bound }
    ensures cause { IsErrOf result ReadFault.Failed → Rose (S.source.told source.old).faults (S.source.told source.new).faults }
    ensures later { (S.source.told source.old).faults ≤ (S.source.told source.new).faults }
    ensures calm { IsErrOf result ReadFault.Failed ⊎ ((S.source.told source.new).faults ≡ (S.source.told source.old).faults) }
{
    let mut bytes = Vec::new(alloc);
    let mut count = 0;
    while count <= bound {
        make_room(&mut bytes, count, bound)?;
        match read_behind(source, bytes.as_mut_slice(), count) {
            Ok(0) => {
                bytes.truncate(count);
                return Ok(bytes);
            }
            Ok(more) => count += more,
            Err(IoFault::Failed) => return Err(ReadFault::Failed),
            Err(IoFault::OutOfMemory) => return Err(ReadFault::OutOfMemory),
        }
    }
    Err(ReadFault::TooLong)
}

/// Makes room behind the first `count` bytes, twice as much as there was, but for no more than one byte past the bound.
fn make_room(bytes: &mut Vec<u8>, count: usize, bound: usize) -> Result<(), ReadFault>
    requires bound { bound < 2 ^ 63 }
    requires count { count ≤ bound }
    requires held { count ≤ vec_len bytes.old }
    requires size { vec_len bytes.old ≤ bound + 1 }
    ensures room { OnOk result (count < vec_len bytes.new) }
    ensures kept { OnOk result (take count bytes.new.items ≡ take count bytes.old.items) }
    ensures size { OnOk result (vec_len bytes.new ≤ bound + 1) }
    ensures cause { IfErr result (λ fault. fault ≡ NoMemory) }
{
    if count < bytes.len() {
        return Ok(());
    }
    let size = (count + count.max(ROOM)).min(bound + 1);
    match bytes.resize(size, 0) {
        Ok(()) => Ok(()),
        Err(_) => Err(ReadFault::OutOfMemory),
    }
}

/// Reads into the room behind the first `count` bytes.
fn read_behind<S: Source>(source: &mut S, room: &mut [u8], count: usize) -> Result<usize, IoFault>
    requires { count < length room.old }
    ensures before { take count room.new ≡ take count room.old }
    ensures count { IfOk result (λ more. count + more ≤ length room.new) }
    ensures given { IfOk result (λ more. Takes (S.source.told source.old).left
        (S.source.told source.new).left (take more (drop count room.new))) }
    ensures end { IfOk result (λ more. EndsAt (S.source.told source.old).left (S.source.told source.new).left more) }
    ensures kept { OnErr result (Keeps (S.source.told source.old).left (S.source.told source.new).left) }
    ensures cause { HasCause (S.source.told source.old).faults (S.source.told source.new).faults result }
{
    source.read(&mut room[count..])
}
