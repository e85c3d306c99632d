//! Answers the requests that have come on a connection of HTTP, by the service of the queues or of
//! pages.
ghost use Rattle.std.specs.Prelude.{◌≡◌};
ghost use Rattle.http_server.specs.Connection.{config_of, history};
ghost use Rattle.http_server.specs.Exchange.{Calls};
ghost use Rattle.http_server.specs.History.{IsQuiet, IsServed, Rests};
ghost use Rattle.serve_peers.specs.Turns.{Continues};

use crate::room_service::RoomService;
use http_server::Connection;

/// Answers the requests that have come on a connection of HTTP, each by one call of the service, at
/// the moment of what is served. Other connections stay as they are.
pub fn answer_requests<V: RoomService>(connection: &mut Connection, service: &mut V)
    ensures calls { Calls V.answers service.old service.new
        (history connection.old).calls (history connection.new).calls }
    ensures continues { Continues V.Kept.Store (V.rooms service.old) (V.rooms service.new) }
    ensures served { ∥ IsServed (config_of connection.new) (history connection.new) ∥₁ }
    ensures rests { Rests (config_of connection.new) (history connection.new) }
    ensures quiet { IsQuiet (history connection.old) (history connection.new) }
    ensures config { config_of connection.new ≡ config_of connection.old }
{
    connection.advance(service);
}
