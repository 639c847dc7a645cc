//! Ports of the operating system that wait in one thread, and are stopped by another.

use crate::sockets::LOOPBACK;
use dns_ports::{Hub, SocketHub, StopToken, TcpPort, UdpPort};
use std::test::Fail;
use std::thread::{self, join_mut};
use std::time::Duration;

/// Whether a socket is at its end, which it may wait for.
fn ends<P: UdpPort>(port: &mut P, room: &mut Vec<u8>) -> bool {
    if room.len() < 65_535 {
        return false;
    }
    match port.receive(room.as_mut_slice()) {
        Ok(None) => true,
        _ => false,
    }
}

/// Whether a listener gives no connection.
fn gives_none<P: TcpPort>(port: &mut P) -> bool {
    match port.accept() {
        Ok(Some(connection)) => {
            port.done(connection);
            false
        }
        Ok(None) => true,
        Err(_) => false,
    }
}

/// A listener waits in a thread until another stops its token, and then a socket waits likewise.
#[test]
fn from_another_thread(rt: HostRuntime) -> Result<(), Fail> {
    let (first, second) = (StopToken::new(rt.alloc())?, StopToken::new(rt.alloc())?);
    let mut hub = SocketHub::new(rt.alloc(), &rt);
    let mut listeners = hub.open_tcp(LOOPBACK, 0, 1, &first)?;
    let mut listener = listeners.pop().ok_or("no listener")?;
    let mut socket = hub.open_udp(LOOPBACK, &second)?;
    let mut room = Vec::new(rt.alloc());
    room.resize(65_535, 0)?;
    let (ended, ()) = join_mut(
        &rt,
        &mut || gives_none(&mut listener) && ends(&mut socket, &mut room),
        &mut || {
            thread::sleep(&rt, Duration::from_millis(30));
            first.stop();
            thread::sleep(&rt, Duration::from_millis(150));
            second.stop();
        },
    );
    assert!(rt; ended);
    Ok(())
}
