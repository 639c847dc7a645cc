//! Ports of the operating system, over loopback.

use dns_edges::{Sink, Source};
use dns_io::{IoFault, Ip, Peer};
use dns_ports::{Hub, SocketHub, StopToken, TcpPort, UdpPort};
use std::io::{Read, Write};
use std::net::{IpAddr, Ipv4Addr, SocketAddr, TcpStream, UdpSocket};
use std::rt::Clock;
use std::test::Fail;
use std::time::Duration;

/// A port of this machine, which the system chooses.
pub const LOOPBACK: Peer = Peer {
    ip: Ip::V4(0x7f00_0001),
    port: 0,
};

/// A port of this machine as an address.
fn address(port: u16) -> SocketAddr {
    SocketAddr::new(IpAddr::V4(Ipv4Addr::from_bits(0x7f00_0001)), port)
}

/// Receives a datagram and sends it back.
fn echo_datagram<P: UdpPort>(port: &mut P, room: &mut Vec<u8>) -> Result<usize, Fail> {
    if room.len() < 65_535 {
        return Err(Fail::from("no room"));
    }
    let arrived = port.receive(room.as_mut_slice())?.ok_or("stopped")?;
    let bytes = room.as_slice().get(..arrived.len).ok_or("room")?;
    port.answer(arrived.from, bytes)?;
    Ok(arrived.len)
}

/// Whether a port gives nothing more.
fn is_at_end<P: UdpPort>(port: &mut P, room: &mut Vec<u8>) -> Result<bool, Fail> {
    if room.len() < 65_535 {
        return Err(Fail::from("no room"));
    }
    Ok(port.receive(room.as_mut_slice())?.is_none())
}

/// A datagram goes to the socket and back; a socket whose token is stopped gives none.
#[test]
fn datagram(rt: HostRuntime) -> Result<(), Fail> {
    let stop = StopToken::new(rt.alloc())?;
    let mut hub = SocketHub::new(rt.alloc(), &rt);
    let mut port = hub.open_udp(LOOPBACK, &stop)?;
    let client = UdpSocket::bind(&rt, address(0))?;
    client.set_read_timeout(Some(Duration::from_secs(10)))?;
    client.connect(address(port.local_peer()?.port))?;
    client.send(b"a question")?;
    let mut room = Vec::new(rt.alloc());
    room.resize(65_535, 0)?;
    assert_eq!(rt; echo_datagram(&mut port, &mut room)?, 10);
    let mut reply = [0; 16];
    assert_eq!(rt; client.recv(&mut reply)?, 10);
    assert_eq!(rt; reply, *b"a question\0\0\0\0\0\0");
    stop.stop();
    assert!(rt; is_at_end(&mut port, &mut room)?);
    hub.close_udp(port);
    Ok(())
}

/// A datagram of IPv4 comes to a socket of every address as one of IPv4, at the system's time, and its sender is answered.
#[test]
fn datagram_of_ipv4(rt: HostRuntime) -> Result<(), Fail> {
    let stop = StopToken::new(rt.alloc())?;
    let mut hub = SocketHub::new(rt.alloc(), &rt);
    let every = Peer {
        ip: Ip::V6(0),
        port: 0,
    };
    let mut port = hub.open_udp(every, &stop)?;
    let client = UdpSocket::bind(&rt, address(0))?;
    client.set_read_timeout(Some(Duration::from_secs(10)))?;
    client.connect(address(port.local_peer()?.port))?;
    let before = rt.since_1970()?.as_millis();
    client.send(b"a question")?;
    let mut room = Vec::new(rt.alloc());
    room.resize(65_535, 0)?;
    let arrived = port.receive(room.as_mut_slice())?.ok_or("stopped")?;
    assert_eq!(rt; arrived.from.ip, LOOPBACK.ip);
    assert_eq!(rt; arrived.from.port, client.local_addr()?.port());
    assert!(rt; before <= u128::from(arrived.at) && u128::from(arrived.at) < before + 10_000);
    port.answer(arrived.from, b"an answer")?;
    let mut reply = [0; 16];
    assert_eq!(rt; client.recv(&mut reply)?, 9);
    hub.close_udp(port);
    Ok(())
}

/// A token tells that all have begun where none is expected, and else once each port was asked for what comes.
#[test]
fn roll(rt: HostRuntime) -> Result<(), Fail> {
    let stop = StopToken::new(rt.alloc())?;
    assert!(rt; stop.are_all_here());
    let mut hub = SocketHub::new(rt.alloc(), &rt);
    let mut port = hub.open_udp(LOOPBACK, &stop)?;
    stop.expect(1);
    assert!(rt; !stop.are_all_here());
    stop.stop();
    let mut room = Vec::new(rt.alloc());
    room.resize(65_535, 0)?;
    assert!(rt; is_at_end(&mut port, &mut room)?);
    assert!(rt; stop.are_all_here());
    hub.close_udp(port);
    Ok(())
}

/// Accepts a connection, sends back what is read, and reads on, where the peer is silent for the limit: that read fails. Tells how many
/// bytes were read.
fn echo_connection<P: TcpPort>(port: &mut P) -> Result<usize, Fail> {
    let mut connection = port.accept()?.ok_or("stopped")?;
    let mut room = [0; 16];
    let count = connection.input.read(&mut room)?;
    let bytes = room.get(..count).ok_or("room")?;
    if !bytes.is_empty() {
        connection.output.write(bytes)?;
    }
    let silent = connection.input.read(&mut [0; 16]);
    port.done(connection);
    match silent {
        Err(IoFault::Failed) => Ok(count),
        _ => Err(Fail::from("a silent connection went on")),
    }
}

/// A connection's bytes go to the second of two listeners and back; a read fails where it is silent for its limit, and
/// a listener whose token is stopped gives none.
#[test]
fn connection(rt: HostRuntime) -> Result<(), Fail> {
    let stop = StopToken::new(rt.alloc())?;
    let mut hub = SocketHub::new(rt.alloc(), &rt);
    let mut ports = hub.open_tcp(LOOPBACK, 150, 2, &stop)?;
    let mut port = ports.pop().ok_or("no listener")?;
    let mut client = TcpStream::connect(&rt, address(port.local_peer()?.port))?;
    client.set_read_timeout(Some(Duration::from_secs(10)))?;
    client.write(b"a question")?;
    assert_eq!(rt; echo_connection(&mut port)?, 10);
    let mut reply = [0; 16];
    assert_eq!(rt; client.read(&mut reply)?, 10);
    assert_eq!(rt; reply, *b"a question\0\0\0\0\0\0");
    stop.stop();
    assert!(rt; port.accept()?.is_none());
    hub.close_tcp(port);
    Ok(())
}
