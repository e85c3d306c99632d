//! The command `listen`: connections on a port of this machine, served one after another.
ghost use Rattle.std.specs.Prelude.{◌≡◌, false};
ghost use Rattle.room_serve.specs.Connections.{ServesMessages, TakesLivesOn};
ghost use Rattle.room_serve.specs.Wires.{reader_of, wire_has_ended, writer_of};

use crate::database::serve_on_database;
use crate::serving_command::ServingCommand;
use cli_words::{Fault, Listening};
use input_fields::Counted;
use room_serve::{After, Sink, Source, Wire, serve_one};
use room_store::Store;
use serve_sockets::moment;
use sqlite::{Alter, Connection};
use std::io::{BufReader, Read, Write};
use std::net::{Ipv4Addr, Shutdown, TcpListener, TcpStream};
use std::time::Duration;
use std::{io, thread};

/// How many seconds a client may take for its next bytes, or to take some, while the others wait.
const PATIENCE: u64 = 10;

/// How many milliseconds a client that was told that its connection ends may take to end it too, or
/// for the next piece of what it still sends.
const PARTING: u64 = 150;

/// How many such pieces are read, and dropped: the others never wait longer for it than for a
/// client that is patient.
const MOST_DROPPED: u32 = 64;

/// How many milliseconds to wait where a connection can't be taken, as where too many files are
/// open.
const PAUSE: u64 = 100;

/// How often in a row, about an hour long, that may be before the program ends.
const MOST_TRIES: u32 = 36_000;

/// The most messages of one connection.
const MOST_MESSAGES: u32 = 1_000;

/// How many bytes are asked of a socket at once.
const BUFFER: usize = 65_536;

/// Serves as many connections as are asked for. Writes `listening PORT` before the first.
pub fn listen<W: Write>(
    rt: &HostRuntime,
    asked: &Listening<'_>,
    output: &mut W,
) -> Result<(), Fault> {
    let mut command = *asked;
    serve_on_database(rt, asked.database, &mut command, output)
}

impl ServingCommand for Listening<'_> {
    /// Serves the connections, and hands back the store's one to the database, which is still open.
    fn serve<S: Alter + Drop, W: Write>(
        &mut self,
        rt: &HostRuntime,
        mut store: Store<S>,
        output: &mut W,
    ) -> (Connection<S>, Result<(), Fault>) {
        let served = serve_connections(rt, &mut store, self, output);
        (store.close(), served)
    }
}

/// Serves as many connections as the command asks for, one after another. What an account was told
/// before, and behind it what it is told here, is a life, and its rows are what that left.
fn serve_connections<S: Alter, W: Write>(
    rt: &HostRuntime,
    store: &mut Store<S>,
    asked: &Listening<'_>,
    output: &mut W,
) -> Result<(), Fault>
    ensures lives { TakesLivesOn S.Store store.old store.new }
{
    let listener = TcpListener::bind(rt, (Ipv4Addr::LOCALHOST, asked.port))?;
    writeln!(output, "listening {}", asked.port)?;
    output.flush()?;
    'connections: for _ in 0..asked.connections {
        let stream = accept(rt, &listener)?;
        // What goes wrong in one connection ends it, and is nothing to the next.
        let _ = serve_connection(rt, store, &stream);
    }
    Ok(())
}

/// Waits for the next connection. A try that fails is followed by a pause and another one. `Io`
/// after `MOST_TRIES` in a row that failed.
fn accept(rt: &HostRuntime, listener: &TcpListener) -> Result<TcpStream, Fault> {
    for _ in 0..MOST_TRIES {
        match listener.accept() {
            Ok((stream, _)) => return Ok(stream),
            Err(_) => thread::sleep(rt, Duration::from_millis(PAUSE)),
        }
    }
    Err(Fault::Io)
}

/// Serves one connection to its end.
fn serve_connection<S: Alter>(
    rt: &HostRuntime,
    store: &mut Store<S>,
    stream: &TcpStream,
) -> io::Result<()>
    ensures lives { TakesLivesOn S.Store store.old store.new }
{
    stream.set_nodelay(true)?;
    stream.set_read_timeout(Some(Duration::from_secs(PATIENCE)))?;
    stream.set_write_timeout(Some(Duration::from_secs(PATIENCE)))?;
    let reader = BufReader::with_capacity(rt.alloc(), BUFFER, stream)?;
    let mut wire = Wire::new(Counted::new(reader), Counted::new(stream));
    if serve_messages(rt, store, &mut wire) {
        part(stream)
    } else {
        Ok(())
    }
}

/// Serves the messages of a connection, each at the clock's moment, by a call of `serve_one` for
/// each and by nothing else. Answers whether all went well, so that the connection can be ended in
/// order (`part`): the clock told each moment, and every call was answered, up to the end of the
/// connection or the last of so many.
fn serve_messages<S: Alter, R: Source, W: Sink>(
    rt: &HostRuntime,
    store: &mut Store<S>,
    wire: &mut Wire<R, W>,
) -> bool
    requires going { wire_has_ended wire.old ≡ false }
    requires reads { R.failures (reader_of wire.old) ≡ 0 }
    requires writes { W.failures (writer_of wire.old) ≡ 0 }
    ensures calls { ServesMessages S.Store R.left W.given MOST_MESSAGES result
        wire.old wire.new store.old store.new }
{
    'messages: for served in 0..MOST_MESSAGES {
        let Some(now) = moment(rt) else {
            return false;
        };
        match serve_one(rt.alloc(), store, now, wire) {
            Ok(After::Again) => {}
            Ok(After::Close) => return true,
            Err(_) => return false,
        }
    }
    true
}

/// Ends a connection so that its last answer arrives: were it closed over bytes that nobody read,
/// the system would take back what the client has not read yet.
fn part(stream: &TcpStream) -> io::Result<()> {
    stream.shutdown(Shutdown::Write)?;
    stream.set_read_timeout(Some(Duration::from_millis(PARTING)))?;
    let mut reader = stream;
    let mut dropped = [0; BUFFER];
    for _ in 0..MOST_DROPPED {
        if reader.read(&mut dropped)? == 0 {
            return Ok(());
        }
    }
    Ok(())
}
