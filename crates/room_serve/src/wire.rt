//! `Wire`: a connection of HTTP for `serve_one`, as a reader and a writer.

ghost use Rattle.std.specs.Prelude.{◌≡◌, false};

/// A connection of HTTP: what messages are read from, and what answers are written to.
#[derive(Drop)]
pub struct Wire<R, W> {
    pub(crate) reader: R,
    pub(crate) writer: W,
    pub(crate) has_ended: bool,
}

/// Whether the connection goes on after a call of `serve_one`.
#[derive(Clone, Copy, PartialEq, Eq)]
pub enum After {
    /// Another message may come.
    Again,
    /// It has ended.
    Close,
}

impl<R, W> Wire<R, W> {
    ghost use Rattle.room_serve.specs.Wires.{wire_has_ended, reader_of, writer_of};

    /// A connection that goes on. It takes no memory.
    pub fn new(reader: R, writer: W) -> Wire<R, W>
        ensures reader { reader_of result ≡ reader }
        ensures writer { writer_of result ≡ writer }
        ensures going { wire_has_ended result ≡ false }
    {
        Wire {
            reader,
            writer,
            has_ended: false,
        }
    }

    /// The reader and the writer, as they are. It takes no memory.
    pub fn into_parts(self) -> (R, W)
        ensures reader { result.0 ≡ reader_of self }
        ensures writer { result.1 ≡ writer_of self }
    {
        (self.reader, self.writer)
    }
}
