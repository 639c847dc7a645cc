//! Frames of a feed, and their bytes.

ghost use Rattle.std.specs.Prelude.{◌≡◌, ◌+◌, ◌<◌, ◌≤◌, ◌++◌, ◌^◌, length, IfOk, IfSome, IfNone, OnOk, OnErr};
ghost use Rattle.std.specs.Int.{w32, w64, from_be_bytes};
ghost use Rattle.std.specs.Io.{StartsWith};
ghost use Rattle.dns_follow.specs.Feed.{frame_in, framed};

use dns_io::{Octets, OutOfMemory};
use std::alloc::Global;

/// What a frame of a feed carries: a row of a journal without its stamp, and whether its batch ends with it.
#[derive(Debug, Drop)]
pub struct Frame {
    /// The row's id; of a row that is fed it is its place, from 1.
    pub id: u64,
    /// Who made the change.
    pub client: u32,
    /// The zone's serial after the batch (RFC 1035 3.3.13).
    pub serial: u32,
    /// 1 where the row is the last of its batch, else 0.
    pub mark: u8,
    /// The row's bytes. A frame that is sent has at most 65,518 of them.
    pub bytes: Octets,
}

impl Frame {
    /// The frame that a payload is, without the two bytes of its length; none where it has fewer than 17 bytes.
    pub fn read(alloc: Global, payload: &[u8]) -> Result<Option<Frame>, OutOfMemory>
        ensures { IfOk result (λ found. found ≡ frame_in payload.now) }
    {
        if payload.len() < 17 {
            return Ok(None);
        }
        let (id, rest) = payload.split_at(8);
        let (client, rest) = rest.split_at(4);
        let (serial, rest) = rest.split_at(4);
        Ok(Some(Frame {
            id: read_u64(id),
            client: read_u32(client),
            serial: read_u32(serial),
            mark: rest[0],
            bytes: Octets::from_slice(alloc, &rest[1..])?,
        }))
    }

    /// Adds the frame to a buffer, behind the two bytes of its length. Where memory runs out the buffer is as it was.
    pub fn append(&self, out: &mut Vec<u8>) -> Result<(), OutOfMemory>
        requires { length self.now.bytes ≤ 65518 }
        ensures ok { OnOk result (out.new.items ≡ out.old.items ++ framed self.now) }
        ensures err { OnErr result (out.new.items ≡ out.old.items) }
    {
        let len = out.len();
        let appended = self.put(out);
        if appended.is_err() {
            out.truncate(len);
        }
        appended
    }

    /// Adds it so. Where memory runs out, part of it may stand behind what the buffer had.
    fn put(&self, out: &mut Vec<u8>) -> Result<(), OutOfMemory>
        requires { length self.now.bytes ≤ 65518 }
        ensures ok { OnOk result (out.new.items ≡ out.old.items ++ framed self.now) }
        ensures begins { StartsWith out.new.items out.old.items }
    {
        let size = 17 + self.bytes.len() as u16;
        out.extend_from_slice(&size.to_be_bytes())?;
        out.extend_from_slice(&self.id.to_be_bytes())?;
        out.extend_from_slice(&self.client.to_be_bytes())?;
        out.extend_from_slice(&self.serial.to_be_bytes())?;
        out.push(self.mark)?;
        out.extend_from_slice(self.bytes.as_slice())?;
        Ok(())
    }
}

fn read_u64(bytes: &[u8]) -> u64
    requires { length bytes.now ≡ 8 }
    ensures { result ≡ from_be_bytes w64 bytes.now }
{
    u64::from_be_bytes([
        bytes[0], bytes[1], bytes[2], bytes[3], bytes[4], bytes[5], bytes[6], bytes[7],
    ])
}

fn read_u32(bytes: &[u8]) -> u32
    requires { length bytes.now ≡ 4 }
    ensures { result ≡ from_be_bytes w32 bytes.now }
{
    u32::from_be_bytes([bytes[0], bytes[1], bytes[2], bytes[3]])
}
