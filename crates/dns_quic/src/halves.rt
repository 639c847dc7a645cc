//! The two halves of a stream of QUIC (RFC 9000 2).

ghost use Rattle.std.specs.Prelude.{◌<◌};
ghost use Rattle.dns_quic.specs.Halves.{SendOf, RecvTold, Writes, Finishes, Reads, StopsBy};
ghost use Rattle.dns_quic.specs.declared.halves.StreamEnd.TheVariants.{Finished, Reset};

use dns_io::{IoFault, Octets};

/// How the sending half of a stream was ended.
#[derive(Clone, Copy, Debug, PartialEq, Eq)]
pub enum StreamEnd {
    /// All bytes were written (RFC 9000 3.1, FIN).
    Finished,
    /// It was given up with this code (RFC 9000 19.4).
    Reset(u64),
}

/// The half of a stream on which bytes are sent.
pub trait SendHalf {
    /// What is known of it: the bytes that were taken, and how it was ended, call by call, where they are told, how many calls failed,
    /// up to `u64::MAX`, and what a call does that ends it. A half may stop telling its bytes, or its ends, at any call, and then never
    /// tells them again.
    ghost sending: { SendOf Self };

    /// Takes all the bytes. After an error a front of them was taken.
    fn write(&mut self, bytes: &[u8]) -> Result<(), IoFault>
        ensures told { Writes (sending.told self.old) (sending.told self.new) bytes.now result };

    /// Tells the other side that these are all bytes. After an error it is not ended.
    fn finish(&mut self) -> Result<(), IoFault>
        ensures told { Finishes (sending.told self.old) (sending.told self.new) Finished result }
        ensures next { sending.ending self.old Finished result self.new };

    /// Tells the other side, with this code, that no more bytes come. After an error it is not ended.
    fn reset(&mut self, code: u64) -> Result<(), IoFault>
        ensures told { Finishes (sending.told self.old) (sending.told self.new) (Reset code) result }
        ensures next { sending.ending self.old (Reset code) result self.new };
}

/// The half of a stream on which bytes are received.
pub trait RecvHalf {
    /// What it tells of itself. A half may stop telling its bytes, or its stops, at any call, and then never tells them again; its
    /// count of failed calls goes up to `u64::MAX`.
    ghost told: { Self → RecvTold };

    /// Gives the next bytes, at least one and at most `most` of them; `None` at the end. After an error nothing was
    /// taken.
    fn read(&mut self, most: usize) -> Result<Option<Octets>, IoFault>
        requires { 0 < most }
        ensures told { Reads (told self.old) (told self.new) most result };

    /// Tells the other side, with this code, that nothing more will be read (RFC 9000 19.5).
    fn stop(&mut self, code: u64) -> Result<(), IoFault>
        ensures told { StopsBy (told self.old) (told self.new) code result };
}
