//! What a server serves until.

ghost use Rattle.std.specs.Prelude.{◌≤◌, ℕ, List};
ghost use Rattle.dns_io.specs.Told.{Takes};
ghost use Rattle.dns_edges.specs.Edges.{around};
ghost use Rattle.dns_server.specs.Servers.{EndsReading};

use dns_edges::Source;
use dns_io::IoFault;
use dns_ports::StopToken;
use std::sync::Wait;

/// Reads a source to its end or first fault, and then stops the token. An error says that no memory was found to read on.
pub fn read_out<E: Source, R: Wait>(rt: &R, until: &mut E, token: &StopToken) -> Result<(), IoFault>
    ensures ended { EndsReading (around E.source.told until.old until.new) result }
    ensures read { (bytes : List ℕ) × Takes (E.source.told until.old).left (E.source.told until.new).left bytes }
    ensures later { (E.source.told until.old).faults ≤ (E.source.told until.new).faults }
{
    let ended = read_to_end(rt, until);
    token.stop();
    ended
}

/// Reads a source to its end or first fault.
fn read_to_end<E: Source, R: Wait>(rt: &R, until: &mut E) -> Result<(), IoFault>
    ensures ended { EndsReading (around E.source.told until.old until.new) result }
    ensures read { (bytes : List ℕ) × Takes (E.source.told until.old).left (E.source.told until.new).left bytes }
    ensures later { (E.source.told until.old).faults ≤ (E.source.told until.new).faults }
{
    for _ in rt.forever() {
        let mut room = [0u8; 512];
        match until.read(room.as_mut_slice()) {
            Ok(0) => return Ok(()),
            Ok(_) => {}
            Err(IoFault::Failed) => return Ok(()),
            Err(IoFault::OutOfMemory) => return Err(IoFault::OutOfMemory),
        }
    }
    unreachable!()
}
