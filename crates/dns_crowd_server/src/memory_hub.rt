//! A hub in memory, for tests. It always tells its content, and the openings fail whose numbers it was made with.

ghost use Rattle.std.specs.Prelude.{◌≡◌, ◌≤◌, ◌+◌, ◌++◌, ◌∷◌, [], All, length, min, nat_lt, vec_len, IfOk, OnErr, OnOk};
ghost use Rattle.std.specs.List.{sum_by};
ghost use Rattle.std.specs.Vec.{vec_capacity};
ghost use Rattle.dns_ports.specs.Memory.{IsUnusedUdp, udp_told};
ghost use Rattle.dns_crowd.specs.Memory.{crowd_told};
ghost use Rattle.dns_crowd_server.specs.Hubs.{ClosesPlaces, IsFreshCrowd, OpensPlaces, crowds_of, sockets_of, their_faults};
ghost use Rattle.dns_crowd_server.specs.Memory.{IsUnusedCrowd, crowd_hub_of, crowd_hub_told};
ghost use Rattle.dns_ports.specs.Ports.{CountsPort, IsFreshSocket};

use crate::hub::{CrowdHub, Places, count_at};
use dns_crowd::MemoryCrowd;
use dns_io::{IoFault, OutOfMemory};
use dns_ports::{MemoryUdp, StopToken, faults_behind};
use std::alloc::Global;
use std::collections::VecDeque;
use std::marker::Model;

/// A hub that gives sockets and crowds which were handed to it, and looks at no token.
#[derive(Drop)]
pub struct MemoryCrowdHub {
    alloc: Global,
    sockets: VecDeque<MemoryUdp>,
    crowds: VecDeque<MemoryCrowd>,
    opened: Vec<Places>,
    closed_sockets: Vec<MemoryUdp>,
    closed_crowds: Vec<MemoryCrowd>,
    lent_sockets: usize,
    lent_crowds: usize,
    failing_openings: Vec<u64>,
    calls: u64,
    faults: u64,
    opened_calls: u64,
    failed_calls: u64,
}

impl Model for MemoryCrowdHub {
    ghost use Rattle.std.specs.Prelude.{◌≤◌, ◌+◌, vec_len, All};
    ghost use Rattle.std.specs.Vec.{vec_capacity};
    ghost use Rattle.dns_ports.specs.Memory.{IsUnusedUdp};
    ghost use Rattle.dns_crowd_server.specs.Memory.{CrowdHubState, IsUnusedCrowd};

    ghost Value = { CrowdHubState };

    ghost view = { λ h. record {
      sockets = h.sockets.items;
      crowds = h.crowds.items;
      opened = h.opened.items;
      closed_sockets = h.closed_sockets.items;
      closed_crowds = h.closed_crowds.items;
      lent_sockets = h.lent_sockets;
      lent_crowds = h.lent_crowds;
      failing_openings = h.failing_openings.items;
      calls = h.calls;
      faults = h.faults;
      opened_calls = h.opened_calls;
      failed_calls = h.failed_calls;
    } };

    ghost invariant = { λ h. (vec_len h.closed_sockets + h.lent_sockets ≤ vec_capacity h.closed_sockets)
        × (vec_len h.closed_crowds + h.lent_crowds ≤ vec_capacity h.closed_crowds)
        × All IsUnusedUdp h.sockets.items × All IsUnusedCrowd h.crowds.items };
}

impl MemoryCrowdHub {
    /// A hub that gives these sockets and crowds, each of which was not used yet, in order; without one left it gives one to which nothing
    /// comes. Its openings are counted from 1, and those whose numbers stand in `openings` fail. The count of faults rises by one at each
    /// of them, and where something with a count above 0 is taken back.
    pub fn new(
        alloc: Global,
        sockets: Vec<MemoryUdp>,
        crowds: Vec<MemoryCrowd>,
        openings: Vec<u64>,
    ) -> MemoryCrowdHub
        requires sockets { All IsUnusedUdp sockets.items }
        requires crowds { All IsUnusedCrowd crowds.items }
        ensures { result ≡ crowd_hub_of sockets.items crowds.items openings.items }
    {
        MemoryCrowdHub {
            alloc,
            sockets: VecDeque::from_vec(sockets),
            crowds: VecDeque::from_vec(crowds),
            opened: Vec::new(alloc),
            closed_sockets: Vec::new(alloc),
            closed_crowds: Vec::new(alloc),
            lent_sockets: 0,
            lent_crowds: 0,
            failing_openings: openings,
            calls: 0,
            faults: 0,
            opened_calls: 0,
            failed_calls: 0,
        }
    }

    /// What it opened, in order.
    pub fn opened(&self) -> &Vec<Places>
        ensures { result.now.items ≡ self.now.opened }
    {
        &self.opened
    }

    /// The sockets that it got back, in order.
    pub fn closed_sockets(&self) -> &Vec<MemoryUdp>
        ensures { result.now.items ≡ self.now.closed_sockets }
    {
        &self.closed_sockets
    }

    /// The crowds that it got back, in order.
    pub fn closed_crowds(&self) -> &Vec<MemoryCrowd>
        ensures { result.now.items ≡ self.now.closed_crowds }
    {
        &self.closed_crowds
    }
}

impl CrowdHub for MemoryCrowdHub {
    type Udp = MemoryUdp;

    type Connections = MemoryCrowd;

    ghost told = { crowd_hub_told };

    fn stop_token(&self) -> Result<StopToken, OutOfMemory> {
        StopToken::new(self.alloc)
    }

    fn open(
        &mut self,
        places: &Places,
        _stop: &StopToken,
    ) -> Result<(Vec<MemoryUdp>, Vec<MemoryCrowd>), IoFault>
        ensures sockets { IfOk result (λ ports. length ports.0.items ≡ sockets_of places.now) }
        ensures crowds { IfOk result (λ ports. length ports.1.items ≡ crowds_of places.now) }
        ensures fresh_sockets { IfOk result (λ ports. All (λ one. IsFreshSocket (udp_told one)) ports.0.items) }
        ensures fresh_crowds { IfOk result (λ ports. All (λ one. IsFreshCrowd (crowd_told one)) ports.1.items) }
        ensures told { OpensPlaces (crowd_hub_told self.old) (crowd_hub_told self.new) places.now result }
    {
        self.calls = self.calls.saturating_add(1);
        if self.failing_openings.contains(&self.calls) {
            self.faults = self.faults.saturating_add(1);
            self.failed_calls = self.failed_calls.saturating_add(1);
            return Err(IoFault::Failed);
        }
        let sockets = count_at(1, &places.udp) as usize;
        let crowds = count_at(places.workers, &places.tcp) as usize;
        let lent_sockets = room_for(&mut self.closed_sockets, self.lent_sockets, sockets)?;
        let lent_crowds = room_for(&mut self.closed_crowds, self.lent_crowds, crowds)?;
        let first_sockets = room_of(self.alloc, sockets)?;
        let first_crowds = room_of(self.alloc, crowds)?;
        note(&mut self.opened, *places)?;
        self.lent_sockets = lent_sockets;
        self.lent_crowds = lent_crowds;
        self.opened_calls = self.opened_calls.saturating_add(1);
        Ok((
            next_sockets(self.alloc, &mut self.sockets, sockets, first_sockets),
            next_crowds(self.alloc, &mut self.crowds, crowds, first_crowds),
        ))
    }

    fn close(&mut self, sockets: Vec<MemoryUdp>, crowds: Vec<MemoryCrowd>)
        requires sockets { length sockets.items ≤ self.old.lent_sockets }
        requires crowds { length crowds.items ≤ self.old.lent_crowds }
        ensures told { ClosesPlaces (crowd_hub_told self.old) (crowd_hub_told self.new) sockets.items crowds.items
            (their_faults udp_told crowd_told sockets.items crowds.items) }
    {
        self.faults = faults_after(self.faults, sockets.as_slice(), crowds.as_slice());
        self.lent_sockets -= sockets.len();
        self.lent_crowds -= crowds.len();
        keep(&mut self.closed_sockets, sockets);
        keep(&mut self.closed_crowds, crowds);
    }
}

/// Makes room for so many items, which are out, and for so many more; tells how many that are.
fn room_for<T>(items: &mut Vec<T>, lent: usize, more: usize) -> Result<usize, OutOfMemory>
    ensures items { items.new.items ≡ items.old.items }
    ensures grown { vec_capacity items.old ≤ vec_capacity items.new }
    ensures room { IfOk result (λ count. vec_len items.new + count ≤ vec_capacity items.new) }
    ensures count { IfOk result (λ count. count ≡ lent + more) }
{
    let Some(count) = lent.checked_add(more) else {
        return Err(OutOfMemory);
    };
    items.reserve(count)?;
    Ok(count)
}

/// Room for so many items.
fn room_of<T: Drop>(alloc: Global, count: usize) -> Result<Vec<T>, OutOfMemory>
    ensures empty { IfOk result (λ room. room.items ≡ []) }
    ensures room { IfOk result (λ room. count ≤ vec_capacity room) }
{
    Ok(Vec::with_capacity(alloc, count)?)
}

/// Adds an opening to those that succeeded.
fn note(opened: &mut Vec<Places>, places: Places) -> Result<(), OutOfMemory>
    ensures ok { OnOk result (opened.new.items ≡ opened.old.items ++ places ∷ []) }
    ensures err { OnErr result (opened.new.items ≡ opened.old.items) }
{
    opened.push(places)?;
    Ok(())
}

/// Adds items at the end.
fn keep<T: Drop>(all: &mut Vec<T>, items: Vec<T>)
    requires { vec_len all.old + length items.items ≤ vec_capacity all.old }
    ensures items { all.new.items ≡ all.old.items ++ items.items }
    ensures capacity { vec_capacity all.new ≡ vec_capacity all.old }
{
    for item in items {
        all.push_reserved(item);
    }
}

/// The first sockets, so many, and behind the last one such to which nothing comes.
fn next_sockets(
    alloc: Global,
    sockets: &mut VecDeque<MemoryUdp>,
    count: usize,
    room: Vec<MemoryUdp>,
) -> Vec<MemoryUdp>
    requires empty { room.items ≡ [] }
    requires room { count ≤ vec_capacity room }
    requires unused { All IsUnusedUdp sockets.old.items }
    ensures unused { All IsUnusedUdp result.items }
    ensures unused_rest { All IsUnusedUdp sockets.new.items }
    ensures count { length result.items ≡ count }
{
    let mut first = room;
    for _place in 0..count {
        first.push_reserved(next_socket(alloc, sockets));
    }
    first
}

/// The first socket, or one to which nothing comes.
fn next_socket(alloc: Global, sockets: &mut VecDeque<MemoryUdp>) -> MemoryUdp
    requires { All IsUnusedUdp sockets.old.items }
    ensures unused { IsUnusedUdp result }
    ensures unused_rest { All IsUnusedUdp sockets.new.items }
{
    match sockets.pop_front() {
        Some(socket) => socket,
        None => MemoryUdp::new(alloc, Vec::new(alloc), Vec::new(alloc), Vec::new(alloc)),
    }
}

/// The first crowds, so many, and behind the last one such to which nothing comes.
fn next_crowds(
    alloc: Global,
    crowds: &mut VecDeque<MemoryCrowd>,
    count: usize,
    room: Vec<MemoryCrowd>,
) -> Vec<MemoryCrowd>
    requires empty { room.items ≡ [] }
    requires room { count ≤ vec_capacity room }
    requires unused { All IsUnusedCrowd crowds.old.items }
    ensures unused { All IsUnusedCrowd result.items }
    ensures unused_rest { All IsUnusedCrowd crowds.new.items }
    ensures count { length result.items ≡ count }
{
    let mut first = room;
    for _place in 0..count {
        first.push_reserved(next_crowd(alloc, crowds));
    }
    first
}

/// The first crowd, or one to which nothing comes.
fn next_crowd(alloc: Global, crowds: &mut VecDeque<MemoryCrowd>) -> MemoryCrowd
    requires { All IsUnusedCrowd crowds.old.items }
    ensures unused { IsUnusedCrowd result }
    ensures unused_rest { All IsUnusedCrowd crowds.new.items }
{
    match crowds.pop_front() {
        Some(crowd) => crowd,
        None => MemoryCrowd::new(alloc, Vec::new(alloc), Vec::new(alloc), Vec::new(alloc)),
    }
}

/// The count of faults of a hub behind these: it rises by one where one of them has a count above 0.
fn faults_after(faults: u64, sockets: &[MemoryUdp], crowds: &[MemoryCrowd]) -> u64
    ensures { CountsPort (their_faults udp_told crowd_told sockets.now crowds.now) faults result }
{
    faults_behind(faults, faulty(sockets, crowds))
}

/// 1 where one of these has a count of faults above 0, else 0.
fn faulty(sockets: &[MemoryUdp], crowds: &[MemoryCrowd]) -> u64
    ensures { result ≡ min (their_faults udp_told crowd_told sockets.now crowds.now) 1 }
{
    if has_faulty_socket(sockets) || has_faulty_crowd(crowds) {
        return 1;
    }
    0
}

/// Whether one of these has a count of faults above 0.
fn has_faulty_socket(sockets: &[MemoryUdp]) -> bool
    ensures { result ≡ nat_lt 0 (sum_by (λ one. (udp_told one).faults) sockets.now) }
{
    for socket in sockets {
        if socket.faults() > 0 {
            return true;
        }
    }
    false
}

/// Whether one of these has a count of faults above 0.
fn has_faulty_crowd(crowds: &[MemoryCrowd]) -> bool
    ensures { result ≡ nat_lt 0 (sum_by (λ one. (crowd_told one).faults) crowds.now) }
{
    for crowd in crowds {
        if crowd.faults() > 0 {
            return true;
        }
    }
    false
}
