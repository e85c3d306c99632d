//! The trait of what answers requests of HTTP over the rooms: the queues' service, and that of
//! pages.
ghost use Rattle.std.specs.Prelude.{◌≡◌, ℕ, List};
ghost use Rattle.http.specs.declared.request.Request.{Request};
ghost use Rattle.http_server.specs.declared.response.Response.{Response};
ghost use Rattle.serve_peers.specs.Journals.{shares_of};
ghost use Rattle.serve_peers.specs.Turns.{Continues};
ghost use Rattle.serve_peers.specs.ProofServices.{answer_continues};
ghost use Rattle.serve_peers.specs.declared.served.Served.{Served};

use crate::served::Served;
use http_server::Service;
use sqlite::Alter;

/// A service of HTTP over what one process serves. Whatever it answers stands in the journal if it
/// was applied, and nothing else becomes of the rooms.
///
/// The queues' service is `Served` itself. Another one borrows it for a turn.
pub trait RoomService: Service {
    /// Where the rooms are kept.
    type Kept: Alter;

    // What is served.
    ghost rooms: { Self → Served Self.Kept };

    /// Whether what is applied shares a commit.
    fn is_shared(&self) -> bool
        ensures { result ≡ shares_of (rooms self.now) };

    // What an answer applies is noted, and it, and nothing else, made of the tables what they are.
    ghost continues: { (old new : Self) (request : Request (List ℕ)) (response : Response)
        → Self.answers old request response new
        → Continues Self.Kept.Store (rooms old) (rooms new) };
}

impl<S: Alter> RoomService for Served<S> {
    type Kept = S;

    ghost rooms = { λ served. served };

    fn is_shared(&self) -> bool {
        self.is_shared()
    }

    ghost continues = { answer_continues _ };
}
