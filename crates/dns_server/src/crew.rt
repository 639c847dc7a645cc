//! Workers that come and go.

ghost use Rattle.std.specs.Prelude.{◌≡◌, ◌≤◌, ◌<◌, ◌+◌, ◌++◌, length, [], vec_len, OnOk};
ghost use Rattle.std.specs.Vec.{vec_capacity};
ghost use Rattle.dns_server.specs.Servers.{MayTakeOn, their_passes, their_ports};

use crate::limit::Limit;
use crate::worker::Worker;
use dns_io::OutOfMemory;
use dns_ticket_lock::Pass;

/// Gives the first free pass to a worker of this port, or, where memory runs out, the port back. `room` gets room for the ports of all
/// workers.
pub(crate) fn take_on<P>(
    free: &mut Vec<Pass>,
    workers: &mut Vec<Worker<P>>,
    room: &mut Vec<P>,
    port: P,
    limit: Limit,
) -> Result<(), P>
    requires some { 0 < length free.old.items }
    requires room { vec_len workers.old ≤ vec_capacity room.old }
    ensures taken { MayTakeOn port limit free.old.items workers.old.items free.new.items workers.new.items result }
    ensures room { (room.new.items ≡ room.old.items) × (vec_len workers.new ≤ vec_capacity room.new) }
    ensures capacity { vec_capacity free.new ≡ vec_capacity free.old }
{
    let Ok(()) = make_room(workers, room) else {
        return Err(port);
    };
    let pass = free.remove(0);
    workers.push_reserved(Worker {
        pass,
        port,
        limit,
        answer: Ok(()),
    });
    Ok(())
}

/// Makes room for one worker more, and for the ports of all.
fn make_room<P>(workers: &mut Vec<Worker<P>>, room: &mut Vec<P>) -> Result<(), OutOfMemory>
    requires { vec_len workers.old ≤ vec_capacity room.old }
    ensures workers { OnOk result (vec_len workers.new < vec_capacity workers.new) }
    ensures room { OnOk result (vec_len workers.new + 1 ≤ vec_capacity room.new) }
    ensures same { (workers.new.items ≡ workers.old.items) × (room.new.items ≡ room.old.items) }
    ensures kept { vec_len workers.new ≤ vec_capacity room.new }
{
    workers.reserve(1)?;
    room.reserve(workers.len() + 1)?;
    Ok(())
}

/// Dismisses workers: their passes come behind the free ones, and their ports into `room`, in order.
pub fn dismiss<P: Drop>(workers: Vec<Worker<P>>, room: Vec<P>, free: &mut Vec<Pass>) -> Vec<P>
    requires empty { room.items ≡ [] }
    requires room { vec_len workers ≤ vec_capacity room }
    requires passes { length free.old.items + vec_len workers ≤ vec_capacity free.old }
    ensures ports { result.items ≡ their_ports workers.items }
    ensures free { free.new.items ≡ free.old.items ++ their_passes workers.items }
    ensures capacity { vec_capacity free.new ≡ vec_capacity free.old }
{
    let mut ports = room;
    for worker in workers {
        let Worker { pass, port, .. } = worker;
        free.push_reserved(pass);
        ports.push_reserved(port);
    }
    ports
}
