//! One turn of a connection at the desk.
ghost use Rattle.std.specs.Prelude.{◌≡◌, IsFalse};
ghost use Rattle.serve_peers.specs.HttpPeers.{CallsService, IsAtRest, IsLater};
ghost use Rattle.serve_peers.specs.Turns.{Continues};
ghost use Rattle.serve_desk.specs.Answers.{Answers, rooms_of};

use crate::desk::Desk;
use serve_peers::{HttpPeer, Next, Served, Turn};
use sqlite::Alter;
use std::io::{Read, Write};

/// Goes on with a connection at the desk for one turn: reads, answers by the service of the desk, and
/// writes.
pub fn drive_desk<S: Alter, R: Read, W: Write>(
    peer: &mut HttpPeer,
    reader: &mut R,
    writer: &mut W,
    served: &mut Served<S>,
    turn: Turn,
) -> Next
    ensures calls { CallsService (Answers S.Store) peer.old peer.new served.old served.new }
    ensures later { IsLater (R.remaining reader.old, W.contents writer.old)
        (R.remaining reader.new, W.contents writer.new) peer.old peer.new }
    ensures continues { Continues S.Store served.old served.new }
    ensures rests { result ≡ Next.Wait → IsAtRest peer.new }
    ensures holds { result ≡ Next.HeldBack → IsFalse turn.has_memory }
{
    let mut desk = Desk { served };
    drive_with_desk(peer, reader, writer, &mut desk, turn)
}

/// Goes on with the connection for one turn, by this service.
fn drive_with_desk<S: Alter, R: Read, W: Write>(
    peer: &mut HttpPeer,
    reader: &mut R,
    writer: &mut W,
    desk: &mut Desk<'_, S>,
    turn: Turn,
) -> Next
    ensures same { desk.new.served.ghost_name ≡ desk.old.served.ghost_name }
    ensures calls { CallsService (Answers S.Store) peer.old peer.new
        (rooms_of desk.old) (rooms_of desk.new) }
    ensures later { IsLater (R.remaining reader.old, W.contents writer.old)
        (R.remaining reader.new, W.contents writer.new) peer.old peer.new }
    ensures continues { Continues S.Store (rooms_of desk.old) (rooms_of desk.new) }
    ensures rests { result ≡ Next.Wait → IsAtRest peer.new }
    ensures holds { result ≡ Next.HeldBack → IsFalse turn.has_memory }
{
    peer.drive(reader, writer, desk, turn)
}
