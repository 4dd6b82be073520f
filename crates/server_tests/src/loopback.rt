//! A client that sends all it has, shuts its side, and reads the replies when it has been served.

use crate::messages::{REPLIES, REPLIES_AGAIN, STREAM};
use crate::served::{assert_got, assert_served};
use crush_server::{Listener, TcpClients, Waiting};
use std::alloc::Global;
use std::io::{self, Read, Write};
use std::net::{Ipv4Addr, Shutdown, TcpListener, TcpStream};
use std::process::Abort;
use std::rt::HostRuntime;

/// Finds a port that nobody listens on.
fn free_port(rt: &HostRuntime) -> io::Result<u16> {
    let listener = TcpListener::bind(rt, (Ipv4Addr::LOCALHOST, 0))?;
    Ok(listener.local_addr()?.port())
}

/// Connects a client to `port`, sends the messages, and shuts the client's side.
fn client(rt: &HostRuntime, port: u16) -> io::Result<TcpStream> {
    let mut stream = TcpStream::connect(rt, (Ipv4Addr::LOCALHOST, port))?;
    stream.write_all(STREAM)?;
    stream.shutdown(Shutdown::Write)?;
    Ok(stream)
}

/// Asserts that all that the client gets is `replies`.
fn assert_gets(rt: &impl Abort, alloc: Global, mut stream: TcpStream, replies: &[u8]) {
    let mut got = Vec::new(alloc);
    stream.read_to_end(&mut got).expect(rt, "not read");
    assert_got(rt, &got, replies);
}

#[test]
fn connections_are_served_one_after_the_other(rt: HostRuntime) {
    let port = free_port(&rt).expect(&rt, "no port");
    let waiting = Waiting::new(&rt);
    let mut clients = TcpClients::new(&rt, port, &waiting).expect(&rt, "no memory");
    clients.listen().expect(&rt, "not listened on");
    let first = client(&rt, port).expect(&rt, "not sent");
    let second = client(&rt, port).expect(&rt, "not sent");
    assert_served(&rt, rt.alloc(), &mut clients, 2);
    assert_gets(&rt, rt.alloc(), first, REPLIES);
    assert_gets(&rt, rt.alloc(), second, REPLIES_AGAIN);
}

#[test]
fn a_client_that_is_gone_does_no_harm(rt: HostRuntime) {
    let port = free_port(&rt).expect(&rt, "no port");
    let waiting = Waiting::new(&rt);
    let mut clients = TcpClients::new(&rt, port, &waiting).expect(&rt, "no memory");
    clients.listen().expect(&rt, "not listened on");
    drop(client(&rt, port).expect(&rt, "not sent"));
    let second = client(&rt, port).expect(&rt, "not sent");
    assert_served(&rt, rt.alloc(), &mut clients, 2);
    assert_gets(&rt, rt.alloc(), second, REPLIES_AGAIN);
}
