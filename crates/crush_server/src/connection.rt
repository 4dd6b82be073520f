//! Connections over TCP.

use crate::client::Client;
use crate::fault::ServerFault;
use crate::listener::Listener;
use crate::waiting::Waiting;
use std::alloc::AllocError;
use std::io::{self, ErrorKind, Read};
use std::net::{Ipv4Addr, Shutdown, TcpListener, TcpStream, UdpSocket};
use std::rt::HostRuntime;
use std::time::Duration;

/// The greatest number of seconds that one read or write waits for the client.
const WAIT_SECONDS: u64 = 5;

/// The number of milliseconds that a read at the end waits for what the client still sends.
const LAST_MILLISECONDS: u64 = 100;

/// The greatest number of reads that take what the client still sends.
const LAST_READS: u32 = 40;

/// The greatest number of bytes that one of these reads takes.
const TAKEN_SIZE: usize = 65_536;

/// The number of milliseconds that pass after an accept that failed.
const PAUSE_MILLISECONDS: u64 = 100;

/// Sets how long a read or a write waits for the client, and that replies are sent without delay.
fn prepare(stream: &TcpStream) -> io::Result<()> {
    let wait = Duration::from_secs(WAIT_SECONDS);
    stream.set_read_timeout(Some(wait))?;
    stream.set_write_timeout(Some(wait))?;
    stream.set_nodelay(true)
}

/// Shuts the sending side of the connection, and takes what the client still sends for a while: a
/// socket that is closed with bytes unread would be reset, and the last reply could be lost.
fn finish(mut stream: &TcpStream, taken: &mut [u8]) -> io::Result<()> {
    stream.shutdown(Shutdown::Write)?;
    stream.set_read_timeout(Some(Duration::from_millis(LAST_MILLISECONDS)))?;
    for _read in 0..LAST_READS {
        if stream.read(taken)? == 0 {
            break;
        }
    }
    Ok(())
}

/// Makes a socket to which nobody sends, so that a read of it takes `PAUSE_MILLISECONDS`. It is
/// made before the first accept, since an accept fails where no further socket can be made.
fn quiet_socket(rt: &HostRuntime) -> io::Result<UdpSocket> {
    let socket = UdpSocket::bind(rt, (Ipv4Addr::LOCALHOST, 0))?;
    // the socket is its own one peer, so that nothing comes from elsewhere
    socket.connect(socket.local_addr()?)?;
    socket.set_read_timeout(Some(Duration::from_millis(PAUSE_MILLISECONDS)))?;
    Ok(socket)
}

/// One of two handles of a connection's socket, since a reader and a writer are separate values.
pub type TcpClient<'a> = Client<'a, TcpStream, HostRuntime>;

/// The clients of a port of 127.0.0.1. Each read and each write waits at most 5 seconds for a
/// client, and none begins once a message with its reply has taken 30 seconds in all.
#[derive(Drop)]
pub struct TcpClients<'a> {
    rt: &'a HostRuntime,
    port: u16,
    waiting: &'a Waiting<'a, HostRuntime>,
    /// The socket to which clients connect, once the port is listened on.
    listener: Option<TcpListener>,
    /// The socket that is read where an accept failed, so that the next accept waits.
    quiet: Option<UdpSocket>,
    /// The number of accepts that failed.
    failed: u32,
    /// The memory for what a client sends after its replies.
    taken: Vec<u8>,
}

impl<'a> TcpClients<'a> {
    /// Makes the clients of `port`, which isn't listened on yet. `Err(AllocError)`: an allocation
    /// failed; nothing is changed.
    pub fn new(
        rt: &'a HostRuntime,
        port: u16,
        waiting: &'a Waiting<'a, HostRuntime>,
    ) -> Result<Self, AllocError> {
        let taken = vec![in rt.alloc(); 0; TAKEN_SIZE]?;
        Ok(TcpClients {
            rt,
            port,
            waiting,
            listener: None,
            quiet: None,
            failed: 0,
            taken,
        })
    }

    /// Returns the number of clients that couldn't be accepted.
    pub fn failed(&self) -> u32 {
        self.failed
    }

    /// Accepts a connection, and returns two handles of its socket. `Err`: the port isn't listened
    /// on, or a call on a socket failed.
    fn accepted(&self) -> io::Result<(TcpStream, TcpStream)> {
        let Some(listener) = &self.listener else {
            return Err(ErrorKind::NotConnected.into());
        };
        let (stream, _peer) = listener.accept()?;
        prepare(&stream)?;
        let other = stream.try_clone()?;
        Ok((stream, other))
    }

    /// Counts an accept that failed, and waits for a while: the next accept would most likely fail
    /// too, at once.
    fn pause(&mut self) {
        self.failed = self.failed.saturating_add(1);
        if let Some(quiet) = &self.quiet {
            let _nothing = quiet.recv(&mut [0]);
        }
    }
}

impl<'a> Listener for TcpClients<'a> {
    type Reader = TcpClient<'a>;

    type Writer = TcpClient<'a>;

    /// Listens on the port, and writes a line that says so to standard output.
    fn listen(&mut self) -> Result<(), ServerFault> {
        let Ok(listener) = TcpListener::bind(self.rt, (Ipv4Addr::LOCALHOST, self.port)) else {
            return Err(ServerFault::CannotListen);
        };
        self.listener = Some(listener);
        self.quiet = quiet_socket(self.rt).ok();
        let port = self.port;
        if println!(self.rt; "listening 127.0.0.1:{port}").is_err() {
            return Err(ServerFault::WriteFault);
        }
        Ok(())
    }

    fn accept(&mut self) -> io::Result<(TcpClient<'a>, TcpClient<'a>)> {
        match self.accepted() {
            Ok((stream, other)) => {
                self.waiting.restart();
                Ok((
                    Client::new(stream, self.waiting),
                    Client::new(other, self.waiting),
                ))
            }
            Err(error) => {
                self.pause();
                Err(error)
            }
        }
    }

    fn close(&mut self, reader: TcpClient<'a>, _writer: TcpClient<'a>) {
        // where this fails the client is gone, or doesn't end what it sends
        let _finished = finish(&reader.stream, &mut self.taken);
    }
}
