//! The lines that the program writes.

ghost use Rattle.std.specs.Prelude.{◌≡◌, ◌++◌, IfOk, OnOk, string_bytes};
ghost use Rattle.dns_command.specs.Lines.{ip_text, receiver_text, out_line, number_line};

use dns_io::{Ip, OutOfMemory};
use dns_server_core::{Out, Receiver};
use std::alloc::Global;

/// The most bytes of a reply's line beside its hex digits: a letter, an address, a port, three spaces and the line end.
const HEAD: usize = 42;

/// The line of a reply, with its line end: `P ip port hex` for a reply to a datagram's sender, `C conn hex` for one on a
/// connection. The address has 8 or 32 digits; digits are small.
pub fn out_line(alloc: Global, out: &Out) -> Result<String, OutOfMemory>
    ensures { IfOk result (λ line. string_bytes line ≡ out_line out.now) }
{
    let bytes = hex::encode(alloc, out.bytes.as_slice())?;
    let mut line = String::with_capacity(alloc, bytes.len().saturating_add(HEAD))?;
    put_receiver(alloc, &mut line, &out.to)?;
    line.push(' ')?;
    line.push_str(bytes.as_str())?;
    line.push('\n')?;
    Ok(line)
}

/// The line `name n`, with its line end.
pub fn number_line(alloc: Global, name: &str, n: u128) -> Result<String, OutOfMemory>
    ensures { IfOk result (λ line. string_bytes line ≡ number_line name.now n) }
{
    Ok(format!(in alloc; "{name} {n}\n")?)
}

fn put_receiver(alloc: Global, text: &mut String, to: &Receiver) -> Result<(), OutOfMemory>
    ensures { OnOk result (string_bytes text.new ≡ string_bytes text.old ++ receiver_text to.now) }
{
    match to {
        Receiver::Conn(number) => write!(text, "C {number}")?,
        Receiver::Peer(peer) => {
            let ip = ip_text(alloc, &peer.ip)?;
            let port = peer.port;
            write!(text, "P {ip} {port}")?;
        }
    }
    Ok(())
}

fn ip_text(alloc: Global, ip: &Ip) -> Result<String, OutOfMemory>
    ensures { IfOk result (λ text. string_bytes text ≡ ip_text ip.now) }
{
    match ip {
        Ip::V4(n) => Ok(hex::encode(alloc, n.to_be_bytes())?),
        Ip::V6(n) => Ok(hex::encode(alloc, n.to_be_bytes())?),
    }
}
