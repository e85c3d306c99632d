//! Connections to what serves lines on this machine, and to queues, which wait only so long.

use std::io;
use std::net::{Ipv4Addr, TcpStream};
use std::os::unix::net::UnixStream;
use std::time::Duration;

/// How many bytes are asked of a connection at once.
pub const BUFFER: usize = 65_536;

/// How many seconds each read and each write may take. What takes longer fails with `WouldBlock`.
const PATIENCE: u64 = 30;

/// Connects to a port of this machine.
pub fn at_port(rt: &HostRuntime, port: u16) -> io::Result<TcpStream> {
    to_host(rt, Ipv4Addr::LOCALHOST, port)
}

/// Connects to a port of a machine, for the queue of an account.
pub(crate) fn to_host(rt: &HostRuntime, host: Ipv4Addr, port: u16) -> io::Result<TcpStream> {
    let stream = TcpStream::connect(rt, (host, port))?;
    stream.set_nodelay(true)?;
    stream.set_read_timeout(Some(Duration::from_secs(PATIENCE)))?;
    stream.set_write_timeout(Some(Duration::from_secs(PATIENCE)))?;
    Ok(stream)
}

/// Connects to a socket of Unix at the path.
pub fn at_path(rt: &HostRuntime, path: &str) -> io::Result<UnixStream> {
    let stream = UnixStream::connect(rt, path)?;
    stream.set_read_timeout(Some(Duration::from_secs(PATIENCE)))?;
    stream.set_write_timeout(Some(Duration::from_secs(PATIENCE)))?;
    Ok(stream)
}
