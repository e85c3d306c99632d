//! The laws of all that one process serves: its rounds are a run of events, an account's life is
//! found after a crash, the log tells the journal, and a backup holds what it should.
ghost use Rattle.serve_peers.specs.BackupLaws.{BackupsHold};
ghost use Rattle.serve_peers.specs.LineLaws.{LinesTellVerdicts};
ghost use Rattle.serve_peers.specs.LogLaws.{AlwaysLogged};
ghost use Rattle.serve_peers.specs.ServedRuns.{AlwaysRuns};
ghost use Rattle.serve_peers.specs.ServedLives.{AloneIsFound, AlwaysFound, AlwaysLives, KeptIsFound, RoundIsFound, RoundIsNotFound};

use sqlite::Alter;

/// The rounds that were kept, of whichever connections, made of the tables what `run_events` makes
/// of them by the list of all that was asked in them: each account is told, and has, what its own
/// machine alone gives for its own events and those of devices. What was asked in a round that was
/// lost, since its commit failed, made nothing of them. So what is promised of lists of events,
/// `isolation` among it, holds for everybody who is served.
pub fn always_runs<S: Alter>()
    ensures { AlwaysRuns S.Store }
{}

/// Over a crash a round is there whole, or not at all: whole where it was kept, and not at all
/// where it was lost and the connection is still open.
pub fn always_found<S: Alter>()
    ensures { AlwaysFound S.Store }
{}

/// An account's life goes on with what it was told in the rounds that were kept, in the journal's
/// order, whatever came on whichever other connection: its rows are what that life has left.
pub fn always_lives<S: Alter>()
    ensures { AlwaysLives S.Store }
{}

/// Over a crash an account's life is found with all that it was told in the rounds that were kept,
/// each event once and in order, and behind that at most what was under way: the whole round, or
/// the one event that was applied by itself.
pub fn lives_are_always_found<S: Alter>()
    ensures between { KeptIsFound S.Store }
    ensures inside { RoundIsNotFound S.Store }
    ensures round { RoundIsFound S.Store }
    ensures alone { AloneIsFound S.Store }
{}

/// Where a log is kept, and no line of it was left out, its lines are those of the journal, each
/// once and in order, and nothing else: the file has taken them, or they wait for it. Those of a
/// round that is under way stand apart until it is settled, and those of a lost one are dropped.
pub fn always_logged<S: Alter>()
    ensures { AlwaysLogged S.Store }
{}

/// A backup that was made slice by slice has of each account the room that it had at one moment of
/// it, and the devices as they were at its end, whatever was asked in between. So by `copies_agree`
/// of `store_copy` and `isolation` each account is answered over it as over the tables of its
/// moment.
pub fn backups_hold<S: Alter, T: Alter>()
    ensures { BackupsHold S.Store T.Store }
{}

/// A line is told what the machine of its account gives: the reply, and where that is a response,
/// as to who asks in the place of the account's owner, `ok` where it was done, or the word that
/// tells why it was refused.
pub fn lines_tell_words<S: Alter>()
    ensures { LinesTellVerdicts S.Store }
{}
