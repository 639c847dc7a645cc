//! A crowd of the operating system.

ghost use Rattle.std.specs.Prelude.{◌≤◌, length};
ghost use Rattle.dns_crowd.specs.Crowds.{Closes, Gives, Sends, untold_crowd};

use crate::crowd::Crowd;
use dns_io::IoFault;
use dns_readiness::{Came, SocketCrowd};
use std::net::Net;
use std::rt::Clock;

impl<R: Net + Clock + Copy> Crowd for SocketCrowd<R> {
    ghost told = { untold_crowd };

    fn next(&mut self, room: &mut [u8]) -> Result<Option<Came>, IoFault>
        requires { 65535 ≤ length room.old }
        ensures told { Gives (untold_crowd self.old) (untold_crowd self.new) room.new result }
    {
        self.next_event(room)
    }

    fn send(&mut self, conn: u32, bytes: &[u8]) -> Result<(), IoFault>
        ensures told { Sends (untold_crowd self.old) (untold_crowd self.new) conn bytes.now result }
    {
        self.send_to(conn, bytes)
    }

    fn close(&mut self, conn: u32) -> Result<(), IoFault>
        ensures told { Closes (untold_crowd self.old) (untold_crowd self.new) conn result }
    {
        self.close_one(conn);
        Ok(())
    }
}
