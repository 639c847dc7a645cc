//! The network of the operating system, over loopback: each call once, and what it is refused with.

ghost use Rattle.std.specs.Prelude.{◌<◌, length};

use dns_network::{
    Datagrams, Network, Ready, Refused, Stop, Streams, SystemDatagrams, SystemStreams, Watch, Why,
    receive_unless_stopped, wait_unless_stopped,
};
use mio::net::TcpListener;
use std::alloc::Global;
use std::io::{self, ErrorKind, Read, Write};
use std::net::{IpAddr, Ipv4Addr, Net, SocketAddr, TcpStream, UdpSocket};
use std::rt::Clock;
use std::sync::atomic::{AtomicBool, Ordering};
use std::test::Fail;
use std::time::Duration;

/// A token.
#[derive(Clone, Copy)]
struct Token<'a>(&'a AtomicBool);

impl Stop for Token<'_> {
    fn is_stopped(&self) -> bool {
        self.0.load(Ordering::SeqCst)
    }
}

/// A port of this machine, which the system chooses.
fn any_port() -> SocketAddr {
    SocketAddr::new(IpAddr::V4(Ipv4Addr::from_bits(0x7f00_0001)), 0)
}

/// Waits for at most 10 seconds; how many are ready.
fn turn<N: Streams>(network: &mut N) -> Result<usize, Refused> {
    wait_unless_stopped(network, 10_000).unwrap_or(Err(Refused::Useless))
}

/// Receives a datagram.
fn receive_one<N: Datagrams>(
    network: &mut N,
    room: &mut [u8],
) -> Result<(usize, SocketAddr), Refused> {
    receive_unless_stopped(network, room).unwrap_or(Err(Refused::Useless))
}

/// Reads a connection, and closes it where its peer sends no more, or is gone; why it was closed. Else it is handed back.
fn close_at_end<N: Streams>(
    network: &mut N,
    mut stream: N::Stream,
    room: &mut [u8],
) -> Result<Why, N::Stream>
    requires { 0 < length room.old }
{
    match network.read(&mut stream, room) {
        Ok(0) => {
            network.close(stream, Why::Ended);
            Ok(Why::Ended)
        }
        Err(Refused::Gone) => {
            network.close(stream, Why::Gone);
            Ok(Why::Gone)
        }
        _ => Err(stream),
    }
}

/// Closes a connection, and ends all work on the network, where the token is stopped; else it is handed back.
fn close_where_stopped<N: Streams>(network: &mut N, stream: N::Stream) -> Result<(), N::Stream> {
    if network.look() {
        network.cease();
        network.close(stream, Why::Ceased);
        return Ok(());
    }
    Err(stream)
}

/// Connections of a port of this machine, and the port's address.
fn opened<R: Net + Clock + Copy>(
    alloc: Global,
    runtime: R,
    token: Token<'_>,
) -> io::Result<(SystemStreams<R, Token<'_>>, SocketAddr)> {
    let listener = TcpListener::bind(&runtime, any_port())?;
    let at = listener.local_addr()?;
    let network = SystemStreams::over(alloc, runtime, listener, token)?;
    Ok((network, at))
}

/// A connection to an address, whose reads wait for at most so many milliseconds.
fn connected(runtime: &HostRuntime, at: SocketAddr, wait: u64) -> io::Result<TcpStream> {
    let stream = TcpStream::connect(runtime, at)?;
    stream.set_read_timeout(Some(Duration::from_millis(wait)))?;
    Ok(stream)
}

/// The next connection, once the network tells that one waits and nothing else is ready.
fn accept_one<N: Streams>(
    network: &mut N,
    number: u32,
) -> Result<(N::Stream, SocketAddr), Refused> {
    let is_one = turn(network) == Ok(1);
    if is_one && network.ready(0) == Some(Ready::Comes) && network.ready(1).is_none() {
        return network.accept(number);
    }
    Err(Refused::Useless)
}

/// Whether the network tells within 10 seconds that a connection is ready, and nothing else.
fn is_ready<N: Streams>(network: &mut N, number: u32, last: bool) -> bool {
    let is_one = turn(network) == Ok(1);
    is_one && network.ready(0) == Some(Ready::Stream { number, last })
}

/// Whether nothing came yet, and then what a peer sends comes, and the network tells of it.
fn hears<N: Streams>(
    network: &mut N,
    stream: &mut N::Stream,
    number: u32,
    client: &mut TcpStream,
) -> io::Result<bool> {
    let mut room = [0; 16];
    let early = network.read(stream, &mut room);
    client.write(b"a question")?;
    let is_told = is_ready(network, number, false);
    let count = network.read(stream, &mut room);
    Ok(
        early == Err(Refused::NotYet)
            && is_told
            && count == Ok(10)
            && room == *b"a question\0\0\0\0\0\0",
    )
}

/// Whether what is written comes to a peer, and then the end, once it is shut.
fn answers<N: Streams>(
    network: &mut N,
    stream: &mut N::Stream,
    client: &mut TcpStream,
) -> io::Result<bool> {
    let written = network.write(stream, b"an answer");
    let shut = network.shut(stream);
    let mut reply = [0; 16];
    let count = client.read(&mut reply)?;
    let end = client.read(&mut [0; 16])?;
    Ok(
        written == Ok(9)
            && shut == Ok(())
            && count == 9
            && end == 0
            && reply == *b"an answer\0\0\0\0\0\0\0",
    )
}

/// Where none waits none is accepted, and the system's error is kept.
#[test]
fn nothing_waits(rt: HostRuntime) -> Result<(), Fail> {
    let stopped = AtomicBool::new(false);
    let (mut network, _) = opened(rt.alloc(), &rt, Token(&stopped))?;
    assert!(rt; matches!(network.accept(6), Err(Refused::NotYet)));
    assert_eq!(rt;
        network.error().ok_or("no error")?.kind(),
        ErrorKind::WouldBlock
    );
    Ok(())
}

/// Each call on a connection, up to its peer's end.
#[test]
fn connection(rt: HostRuntime) -> Result<(), Fail> {
    let stopped = AtomicBool::new(false);
    let (mut network, at) = opened(rt.alloc(), &rt, Token(&stopped))?;
    let mut client = connected(&rt, at, 10_000)?;
    let (mut stream, whom) = accept_one(&mut network, 7)?;
    assert!(rt; whom == client.local_addr()?);
    network.watch(&mut stream, Watch::ToRead)?;
    assert!(rt; hears(&mut network, &mut stream, 7, &mut client)?);
    assert!(rt; answers(&mut network, &mut stream, &mut client)?);
    drop(client);
    assert!(rt; is_ready(&mut network, 7, true));
    let closed = close_at_end(&mut network, stream, &mut [0; 16]);
    assert!(rt; matches!(closed, Ok(Why::Ended)));
    Ok(())
}

/// Writes as much as a connection takes at once, at most 256 pieces; whether the next one was refused for now.
fn fill<N: Streams>(network: &mut N, stream: &mut N::Stream, piece: &[u8]) -> bool {
    for _ in 0..256 {
        match network.write(stream, piece) {
            Ok(_) => {}
            Err(refused) => return refused == Refused::NotYet,
        }
    }
    false
}

/// Reads all that a connection has, until nothing comes for a while; how many bytes.
fn drain(stream: &mut TcpStream, room: &mut [u8]) -> usize {
    let mut all = 0usize;
    for _ in 0..100_000 {
        match stream.read(room) {
            Ok(count) => all = all.saturating_add(count),
            Err(_) => return all,
        }
    }
    all
}

/// A peer that does not read has writes refused for now, and the network tells when it takes more.
#[test]
fn slow_reader(rt: HostRuntime) -> Result<(), Fail> {
    let stopped = AtomicBool::new(false);
    let (mut network, at) = opened(rt.alloc(), &rt, Token(&stopped))?;
    let mut client = connected(&rt, at, 200)?;
    let (mut stream, _) = accept_one(&mut network, 0)?;
    let mut room = Vec::new(rt.alloc());
    room.resize(65_535, 1)?;
    assert!(rt; fill(&mut network, &mut stream, room.as_slice()));
    network.watch(&mut stream, Watch::ToWrite)?;
    assert!(rt; drain(&mut client, room.as_mut_slice()) > 0);
    assert!(rt; is_ready(&mut network, 0, false));
    assert_eq!(rt; network.write(&mut stream, b"more"), Ok(4));
    Ok(())
}

/// A connection whose peer left with bytes unread is gone.
#[test]
fn gone(rt: HostRuntime) -> Result<(), Fail> {
    let stopped = AtomicBool::new(false);
    let (mut network, at) = opened(rt.alloc(), &rt, Token(&stopped))?;
    let client = connected(&rt, at, 200)?;
    let (mut stream, _) = accept_one(&mut network, 0)?;
    assert_eq!(rt; network.write(&mut stream, b"unread"), Ok(6));
    drop(client);
    let closed = close_at_end(&mut network, stream, &mut [0; 16]);
    assert!(rt; matches!(closed, Ok(Why::Gone)));
    Ok(())
}

/// A connection is closed once the token is stopped, and then no wait is begun.
#[test]
fn stopped(rt: HostRuntime) -> Result<(), Fail> {
    let stopped = AtomicBool::new(false);
    let (mut network, at) = opened(rt.alloc(), &rt, Token(&stopped))?;
    let _client = connected(&rt, at, 200)?;
    let (stream, _) = accept_one(&mut network, 0)?;
    let Err(stream) = close_where_stopped(&mut network, stream) else {
        return Err(Fail::from("the token was not stopped"));
    };
    stopped.store(true, Ordering::SeqCst);
    assert!(rt; close_where_stopped(&mut network, stream).is_ok());
    assert_eq!(rt; turn(&mut network), Err(Refused::Useless));
    Ok(())
}

/// Whether a receive of which nothing comes waits for 100 milliseconds.
fn waits<N: Datagrams>(network: &mut N, runtime: &impl Clock) -> io::Result<bool> {
    let before = runtime.monotonic()?.as_millis();
    let given = receive_one(network, &mut [0; 16]);
    let behind = runtime.monotonic()?.as_millis();
    Ok(given == Err(Refused::NotYet) && behind.saturating_sub(before) >= 90)
}

/// Whether a datagram comes from a client, and one goes back to it.
fn echoes<N: Datagrams>(network: &mut N, at: SocketAddr, client: &UdpSocket) -> io::Result<bool> {
    client.send_to(b"a question", at)?;
    let mut room = [0; 16];
    let whom = client.local_addr()?;
    let came = receive_one(network, &mut room);
    let sent = network.send(whom, b"an answer");
    let mut reply = [0; 16];
    let count = client.recv(&mut reply)?;
    Ok(
        came == Ok((10, whom))
            && room == *b"a question\0\0\0\0\0\0"
            && sent == Ok(9)
            && count == 9
            && reply == *b"an answer\0\0\0\0\0\0\0",
    )
}

/// A datagram goes to the socket and back; a receive waits for as long as the socket was told to.
#[test]
fn datagrams(rt: HostRuntime) -> Result<(), Fail> {
    let stopped = AtomicBool::new(false);
    let socket = UdpSocket::bind(&rt, any_port())?;
    socket.set_read_timeout(Some(Duration::from_millis(100)))?;
    let at = socket.local_addr()?;
    let mut network = SystemDatagrams::over(&rt, socket, Token(&stopped));
    assert!(rt; waits(&mut network, &rt)?);
    let client = UdpSocket::bind(&rt, any_port())?;
    client.set_read_timeout(Some(Duration::from_secs(10)))?;
    assert!(rt; echoes(&mut network, at, &client)?);
    Ok(())
}

/// A datagram that is longer than the system sends is refused as that.
#[test]
fn long_datagram(rt: HostRuntime) -> Result<(), Fail> {
    let stopped = AtomicBool::new(false);
    let socket = UdpSocket::bind(&rt, any_port())?;
    let at = socket.local_addr()?;
    let mut network = SystemDatagrams::over(&rt, socket, Token(&stopped));
    let mut long = Vec::new(rt.alloc());
    long.resize(65_508, 0)?;
    assert_eq!(rt; network.send(at, long.as_slice()), Err(Refused::TooLong));
    assert_eq!(rt; network.error().ok_or("no error")?.raw_os_error(), Some(90));
    Ok(())
}

/// Both clocks are the system's, and a rest lasts.
#[test]
fn clocks(rt: HostRuntime) -> Result<(), Fail> {
    let stopped = AtomicBool::new(false);
    let socket = UdpSocket::bind(&rt, any_port())?;
    let mut network = SystemDatagrams::over(&rt, socket, Token(&stopped));
    let (ticks, wall) = (rt.monotonic()?.as_millis(), rt.since_1970()?.as_millis());
    let first = network.now()?;
    network.rest(50);
    let second = network.now()?;
    assert!(rt; ticks <= u128::from(first.ticks) && u128::from(first.ticks) < ticks + 10_000);
    assert!(rt; wall <= u128::from(first.wall) && u128::from(first.wall) < wall + 10_000);
    assert!(rt; first.ticks.saturating_add(50) <= second.ticks);
    Ok(())
}
