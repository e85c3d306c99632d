//! The socket of one peer, of TCP or of Unix, and the one way to write to it: outside a round.
ghost use Rattle.std.specs.Prelude.{◌≡◌, false};
ghost use Rattle.std.specs.Io.{ReadsAtMost, WritesAtMost};
ghost use Rattle.serve_peers.specs.Journals.{shares_of};

use mio::event::Source;
use mio::net::{TcpStream, UnixStream};
use mio::{Interest, Registry, Token};
use serve_peers::Served;
use sqlite::Alter;
use std::io;
use std::io::{ErrorKind, Read, Write};
use std::net::Shutdown;

/// How many bytes a read takes at most, so that a turn of a peer who sends much is short too.
const MOST_READ: usize = 65_536;

/// A socket whose reads and writes answer `WouldBlock` where they would wait. What is read of it is
/// read by a reference; what is written to it is written by a `Sink`.
#[derive(Drop)]
pub(crate) struct Stream {
    socket: Socket,
}

#[derive(Drop)]
enum Socket {
    Tcp(TcpStream),
    Unix(UnixStream),
}

impl Stream {
    /// The stream of a socket of TCP.
    pub(crate) fn of_tcp(stream: TcpStream) -> Stream {
        Stream {
            socket: Socket::Tcp(stream),
        }
    }

    /// The stream of a socket of Unix.
    pub(crate) fn of_unix(stream: UnixStream) -> Stream {
        Stream {
            socket: Socket::Unix(stream),
        }
    }

    /// The one way in which something is written to the socket. In a round there is none.
    pub(crate) fn sink<S: Alter>(&self, _served: &Served<S>) -> Sink<'_>
        requires { shares_of _served.now ≡ false }
    {
        Sink { stream: self }
    }

    /// Shuts the writing side, so that the peer sees that nothing more comes.
    pub(crate) fn end(&self) -> io::Result<()> {
        match &self.socket {
            Socket::Tcp(stream) => stream.shutdown(Shutdown::Write),
            Socket::Unix(stream) => stream.shutdown(Shutdown::Write),
        }
    }

    /// Reads once, at most `MOST_READ` bytes.
    fn read_once(&self, buffer: &mut [u8]) -> io::Result<usize>
        ensures { ReadsAtMost result buffer.new }
    {
        let most = buffer.len().min(MOST_READ);
        let front = &mut buffer[..most];
        match &self.socket {
            Socket::Tcp(stream) => read_of(stream, front),
            Socket::Unix(stream) => read_of(stream, front),
        }
    }

    /// Writes once.
    fn write_once(&self, piece: &[u8]) -> io::Result<usize>
        ensures { WritesAtMost result piece.now }
    {
        match &self.socket {
            Socket::Tcp(stream) => write_to(stream, piece),
            Socket::Unix(stream) => write_to(stream, piece),
        }
    }
}

impl Read for &Stream {
    fn read(&mut self, buffer: &mut [u8]) -> io::Result<usize> {
        self.read_once(buffer)
    }
}

/// The writer to a socket. `Stream::sink` gives one, outside a round alone.
#[derive(Drop)]
pub(crate) struct Sink<'a> {
    stream: &'a Stream,
}

impl Write for Sink<'_> {
    fn write(&mut self, piece: &[u8]) -> io::Result<usize> {
        self.stream.write_once(piece)
    }

    fn flush(&mut self) -> io::Result<()> {
        Ok(())
    }
}

/// The writer of a turn in a round: it takes nothing, as a socket that would wait, so that no
/// answer goes out before the commit.
#[derive(Drop)]
pub(crate) struct Unsent;

impl Write for Unsent {
    ghost use Rattle.std.specs.Prelude.{[], Some};

    ghost contents = { λ _. Some [] };

    fn write(&mut self, _piece: &[u8]) -> io::Result<usize> {
        Err(io::Error::from(ErrorKind::WouldBlock))
    }

    fn flush(&mut self) -> io::Result<()> {
        Ok(())
    }
}

/// Reads once of any reader.
fn read_of<R: Read + Drop>(mut reader: R, buffer: &mut [u8]) -> io::Result<usize>
    ensures { ReadsAtMost result buffer.new }
{
    reader.read(buffer)
}

/// Writes once to any writer.
fn write_to<W: Write + Drop>(mut writer: W, piece: &[u8]) -> io::Result<usize>
    ensures { WritesAtMost result piece.now }
{
    writer.write(piece)
}

impl Source for Stream {
    ghost use Rattle.std.specs.Prelude.{◌≡◌};

    ghost keeps = { λ before after. after ≡ before };

    fn register(
        &mut self,
        registry: &Registry,
        token: Token,
        interests: Interest,
    ) -> io::Result<()> {
        match &mut self.socket {
            Socket::Tcp(stream) => stream.register(registry, token, interests),
            Socket::Unix(stream) => stream.register(registry, token, interests),
        }
    }

    fn reregister(
        &mut self,
        registry: &Registry,
        token: Token,
        interests: Interest,
    ) -> io::Result<()> {
        match &mut self.socket {
            Socket::Tcp(stream) => stream.reregister(registry, token, interests),
            Socket::Unix(stream) => stream.reregister(registry, token, interests),
        }
    }

    fn deregister(&mut self, registry: &Registry) -> io::Result<()> {
        match &mut self.socket {
            Socket::Tcp(stream) => stream.deregister(registry),
            Socket::Unix(stream) => stream.deregister(registry),
        }
    }
}
