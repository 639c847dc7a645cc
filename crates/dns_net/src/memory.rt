//! A body in memory, for tests and for what is there already. It always tells its content, and the calls fail whose
//! numbers it was made with.

ghost use Rattle.std.specs.Prelude.{◌≡◌, nat_lt};
ghost use Rattle.dns_transport.specs.Pieces.{GivesPiece, HasBytes, NextOf};
ghost use Rattle.dns_net.specs.Memory.{PieceNext, body_told};

use bytes::Bytes;
use dns_io::IoFault;
use dns_transport::BodyPieces;
use std::collections::LinkedList;
use std::marker::Model;

/// A body of pieces in memory. It never wants memory.
#[derive(Drop)]
pub struct MemoryBody {
    pieces: LinkedList<Bytes>,
    failing: Vec<u64>,
    calls: u64,
    faults: u64,
}

impl Model for MemoryBody {
    ghost use Rattle.dns_net.specs.Memory.{BodyState};

    ghost Value = { BodyState };

    ghost view = { λ b. record { left = b.pieces; failing = b.failing.items; calls = b.calls; faults = b.faults } };
}

impl MemoryBody {
    /// A body of these pieces. Its calls are counted from 1, and those whose numbers stand in `failing` fail; the count
    /// of faults rises by one at each of them, and nowhere else.
    pub fn new(pieces: LinkedList<Bytes>, failing: Vec<u64>) -> MemoryBody
        ensures { result ≡ record { left = pieces; failing = failing.items; calls = 0; faults = 0 } }
    {
        MemoryBody {
            pieces,
            failing,
            calls: 0,
            faults: 0,
        }
    }

    /// Whether a call failed.
    pub fn has_faults(&self) -> bool
        ensures { result ≡ nat_lt 0 self.now.faults }
    {
        0 < self.faults
    }
}

impl BodyPieces for MemoryBody {
    ghost told = { body_told };

    fn next(&mut self) -> Result<Option<Bytes>, IoFault>
        ensures told { GivesPiece (body_told self.old) (body_told self.new) result }
        ensures next { PieceNext self.old result self.new }
    {
        self.calls = self.calls.saturating_add(1);
        if self.failing.contains(&self.calls) {
            self.faults = self.faults.saturating_add(1);
            return Err(IoFault::Failed);
        }
        Ok(next_piece(&mut self.pieces))
    }
}

/// Takes the next piece that has bytes, and the empty ones before it.
fn next_piece(pieces: &mut LinkedList<Bytes>) -> Option<Bytes>
    ensures bytes { HasBytes result }
    ensures next { NextOf result pieces.old pieces.new }
{
    while let Some(piece) = pieces.pop_front() {
        if !piece.is_empty() {
            return Some(piece);
        }
    }
    None
}
