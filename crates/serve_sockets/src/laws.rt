//! Laws of a hall, proved over any storage: who is told how a round ended has asked in it; and what
//! goes out on a socket answers, in order, what came on it. And which event a line asks. Nothing
//! calls them.
ghost use Rattle.serve_sockets.specs.EndToEnd.{FromEndToEnd};
ghost use Rattle.serve_sockets.specs.Hearing.{AlwaysHear};
ghost use Rattle.serve_sockets.specs.LinesAsk.{LinesAsk, MessagesAsk};

use sqlite::Alter;

/// Whoever is told how a round ended has asked in it. What waits for that was asked in the round
/// that is under way, or in the one that was settled last.
pub fn always_hear<S: Alter>()
    ensures { AlwaysHear S.Store }
{}

/// Whatever goes on in a hall that began with nobody in it, over rooms where nothing was asked:
/// whoever comes in speaks what its door is for. What goes out on each connection answers, in order,
/// what came on it. Each answer stands in the journal, and is what the account's own machine gives.
/// Each entry of the journal was asked by one who is there or was, and by nobody else. A question is
/// answered by the journal as it stands in its turn. The tables are what the journal leaves, and a
/// crash finds that.
pub fn from_end_to_end<S: Alter>()
    ensures { FromEndToEnd S.Store }
{}

/// A line asks the event that its words say, at its moment: a station's line one of a station, an
/// operator's one of an operator. `cancel` and `hold` ask what the account's owner would ask by
/// Cancel-Job and Hold-Job, byte for byte. A message of IPP is asked of its account as it came.
pub fn lines_ask_what_they_say()
    ensures lines { LinesAsk }
    ensures messages { MessagesAsk }
{}
