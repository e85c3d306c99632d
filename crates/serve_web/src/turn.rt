//! One turn of a browser's connection.
ghost use Rattle.std.specs.Prelude.{◌≡◌, IsFalse};
ghost use Rattle.serve_peers.specs.HttpPeers.{CallsService, IsAtRest, IsLater};
ghost use Rattle.serve_peers.specs.Turns.{Continues};
ghost use Rattle.serve_web.specs.Answers.{Answers, rooms_of};

use crate::pages::Pages;
use serve_peers::{HttpPeer, Next, Served, Turn};
use sqlite::Alter;
use std::io::{Read, Write};

/// Goes on with a browser's connection for one turn: reads, answers by the service of pages, and
/// writes.
pub fn drive_browser<S: Alter, R: Read, W: Write>(
    peer: &mut HttpPeer,
    reader: &mut R,
    writer: &mut W,
    served: &mut Served<S>,
    turn: Turn,
) -> Next
    ensures calls { CallsService (Answers S.Store) peer.old peer.new served.old served.new }
    ensures later { IsLater (R.remaining reader.old, W.contents writer.old)
        (R.remaining reader.new, W.contents writer.new) peer.old peer.new }
    ensures continues { Continues S.Store served.old served.new }
    ensures rests { result ≡ Next.Wait → IsAtRest peer.new }
    ensures holds { result ≡ Next.HeldBack → IsFalse turn.has_memory }
{
    let mut pages = Pages { served };
    drive_with_pages(peer, reader, writer, &mut pages, turn)
}

/// Goes on with the connection for one turn, by this service.
fn drive_with_pages<S: Alter, R: Read, W: Write>(
    peer: &mut HttpPeer,
    reader: &mut R,
    writer: &mut W,
    pages: &mut Pages<'_, S>,
    turn: Turn,
) -> Next
    ensures same { pages.new.served.ghost_name ≡ pages.old.served.ghost_name }
    ensures calls { CallsService (Answers S.Store) peer.old peer.new
        (rooms_of pages.old) (rooms_of pages.new) }
    ensures later { IsLater (R.remaining reader.old, W.contents writer.old)
        (R.remaining reader.new, W.contents writer.new) peer.old peer.new }
    ensures continues { Continues S.Store (rooms_of pages.old) (rooms_of pages.new) }
    ensures rests { result ≡ Next.Wait → IsAtRest peer.new }
    ensures holds { result ≡ Next.HeldBack → IsFalse turn.has_memory }
{
    peer.drive(reader, writer, pages, turn)
}
