//! Room for workers, and for their ports when they are dismissed: it is made before anything is opened.

ghost use Rattle.std.specs.Prelude.{◌≡◌, ◌<◌, ◌≤◌, ◌++◌, ◌^◌, [], length, IfOk};
ghost use Rattle.std.specs.Vec.{vec_capacity};
ghost use Rattle.dns_server.specs.Servers.{their_passes, their_ports};
ghost use Rattle.dns_crowd_server.specs.Hubs.{crowds_of, sockets_of};

use crate::hub::{Places, count_at};
use dns_io::OutOfMemory;
use dns_server::{Limit, Worker};
use dns_ticket_lock::Pass;
use std::alloc::Global;

/// Room for the workers of a server, and for their ports.
#[derive(Drop)]
pub(crate) struct Rooms<U, C> {
    pub(crate) sockets: Vec<Worker<U>>,
    pub(crate) crowds: Vec<Worker<C>>,
    pub(crate) socket_ports: Vec<U>,
    pub(crate) crowd_ports: Vec<C>,
}

impl<U: Drop, C: Drop> Rooms<U, C> {
    /// Room for those that these places ask for.
    pub(crate) fn new(alloc: Global, places: &Places) -> Result<Rooms<U, C>, OutOfMemory>
        ensures empty_workers { IfOk result (λ r. (r.sockets.items ≡ []) × (r.crowds.items ≡ [])) }
        ensures empty_ports { IfOk result (λ r. (r.socket_ports.items ≡ []) × (r.crowd_ports.items ≡ [])) }
        ensures socket_room { IfOk result (λ r. (sockets_of places.now ≤ vec_capacity r.sockets)
            × (sockets_of places.now ≤ vec_capacity r.socket_ports)) }
        ensures crowd_room { IfOk result (λ r. (crowds_of places.now ≤ vec_capacity r.crowds)
            × (crowds_of places.now ≤ vec_capacity r.crowd_ports)) }
    {
        let sockets = count_at(1, &places.udp) as usize;
        let crowds = count_at(places.workers, &places.tcp) as usize;
        Ok(Rooms {
            sockets: Vec::with_capacity(alloc, sockets)?,
            crowds: Vec::with_capacity(alloc, crowds)?,
            socket_ports: Vec::with_capacity(alloc, sockets)?,
            crowd_ports: Vec::with_capacity(alloc, crowds)?,
        })
    }
}

/// Takes a worker on for each of these ports, in order, each with the first free pass.
pub(crate) fn take_on<P: Drop>(
    free: &mut Vec<Pass>,
    ports: Vec<P>,
    limit: u64,
    room: Vec<Worker<P>>,
) -> Vec<Worker<P>>
    requires passes { length ports.items ≤ length free.old.items }
    requires empty { room.items ≡ [] }
    requires room { length ports.items ≤ vec_capacity room }
    requires limit { limit < 2 ^ 47 }
    ensures ports { their_ports result.items ≡ ports.items }
    ensures passes { free.old.items ≡ their_passes result.items ++ free.new.items }
    ensures capacity { vec_capacity free.new ≡ vec_capacity free.old }
{
    let mut workers = room;
    for port in ports {
        let pass = free.remove(0);
        workers.push_reserved(Worker {
            pass,
            port,
            limit: Limit::new(limit),
            answer: Ok(()),
        });
    }
    workers
}
