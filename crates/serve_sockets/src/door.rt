//! A socket that listens, on a port of this machine or at a path, and how it is opened. What comes
//! in by it, and how many, is in `doors.rt`.
ghost use Rattle.std.specs.Prelude.{IsSome, IsTrue};

use crate::stream::Stream;
use mio::event::Source;
use mio::net::{TcpListener, UnixListener, UnixStream};
use mio::{Interest, Registry, Token};
use std::fs::Permissions;
use std::io::ErrorKind;
use std::net::{Ipv4Addr, Net, SocketAddr, SocketAddrV4};
use std::os::unix::fs::{FileTypeExt, PermissionsExt};
use std::rt::Files;
use std::{fs, io};

/// Its owner and its group read and write.
const OWNER_AND_GROUP: u32 = 0o660;

/// How many peers at most are sent away that connected before the socket's file had its mode.
const MOST_EARLY: u32 = 100_000;

/// A socket that listens. It does not know what is spoken there: `Entrance` does. (The `Door` of
/// `serve_log` is a word of the log: clients, stations or operators.)
#[derive(Drop)]
pub enum Door {
    Tcp(TcpListener),
    Unix(UnixListener),
}

impl Door {
    ghost use Rattle.serve_sockets.specs.Doors.{is_port};

    /// Listens on a port of 127.0.0.1, or on a free one where it is 0.
    pub fn at_port(net: &impl Net, port: u16) -> io::Result<Door> {
        let addr = SocketAddr::V4(SocketAddrV4::new(Ipv4Addr::LOCALHOST, port));
        Ok(Door::Tcp(TcpListener::bind(net, addr)?))
    }

    /// Listens on a socket at the path, which nobody but its owner and its group can reach. A
    /// socket that a run left which was killed is replaced, but no other file, and none on which
    /// somebody listens: `AddrInUse`.
    pub fn at_path<R: Files + Net>(rt: &R, path: &str) -> io::Result<Door> {
        let listener = match UnixListener::bind(rt, path) {
            Err(error) if error.kind() == ErrorKind::AddrInUse => {
                remove_left(rt, path)?;
                UnixListener::bind(rt, path)?
            }
            listener => listener?,
        };
        fs::set_permissions(rt, path, Permissions::from_mode(OWNER_AND_GROUP))?;
        send_away(&listener);
        Ok(Door::Unix(listener))
    }

    /// The port that it listens on, if it does on one.
    pub fn port(&self) -> Option<u16>
        ensures { IsSome result → IsTrue (is_port self.now) }
    {
        match self {
            Door::Tcp(listener) => Some(listener.local_addr().ok()?.port()),
            Door::Unix(_) => None,
        }
    }

    /// Takes the socket of the next peer that waits, or answers `WouldBlock` where none does.
    pub(crate) fn accept(&self) -> io::Result<Stream> {
        match self {
            Door::Tcp(listener) => {
                let (stream, _) = listener.accept()?;
                stream.set_nodelay(true)?;
                Ok(Stream::of_tcp(stream))
            }
            Door::Unix(listener) => {
                let (stream, _) = listener.accept()?;
                Ok(Stream::of_unix(stream))
            }
        }
    }
}

/// Removes the socket's file at the path, if nobody listens there any more. `AddrInUse` where
/// somebody does, or the file is no socket.
fn remove_left<R: Files + Net>(rt: &R, path: &str) -> io::Result<()> {
    let is_socket = fs::symlink_metadata(rt, path)?.file_type().is_socket();
    match UnixStream::connect(rt, path) {
        Err(error) if is_socket && error.kind() == ErrorKind::ConnectionRefused => {
            fs::remove_file(rt, path)
        }
        _ => Err(io::Error::from(ErrorKind::AddrInUse)),
    }
}

/// Drops the peers that connected before the socket's file had its mode, when anybody could.
fn send_away(listener: &UnixListener) {
    for _ in 0..MOST_EARLY {
        if listener.accept().is_err() {
            return;
        }
    }
}

impl Source for Door {
    fn register(
        &mut self,
        registry: &Registry,
        token: Token,
        interests: Interest,
    ) -> io::Result<()> {
        match self {
            Door::Tcp(listener) => listener.register(registry, token, interests),
            Door::Unix(listener) => listener.register(registry, token, interests),
        }
    }

    fn reregister(
        &mut self,
        registry: &Registry,
        token: Token,
        interests: Interest,
    ) -> io::Result<()> {
        match self {
            Door::Tcp(listener) => listener.reregister(registry, token, interests),
            Door::Unix(listener) => listener.reregister(registry, token, interests),
        }
    }

    fn deregister(&mut self, registry: &Registry) -> io::Result<()> {
        match self {
            Door::Tcp(listener) => listener.deregister(registry),
            Door::Unix(listener) => listener.deregister(registry),
        }
    }
}
