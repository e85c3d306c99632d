//! What is promised to each account: laws that hold of any two runs, which the check proves.
//! Nothing calls them.
ghost use Rattle.room_serve.specs.Agreement.{AgreeAgain, HoldTheSame};
ghost use Rattle.room_serve.specs.Crashes.{AnsweredIsFound, ListsAreFound, UnderWayIsFound};
ghost use Rattle.room_serve.specs.Isolation.{Isolation, RunsJoin};
ghost use Rattle.room_serve.specs.LivesInFiles.{ListsJoin, LivesAreMigrated, LivesAreOpened, LivesBegin, LivesGoOnInLists, LivesGoOnInRuns, MessagesAreEvents};

use sqlite::Alter;

/// The headline. Two databases that agree on an account's rows and on the devices', and two lists
/// of events with the same events of that account and of devices, of which none failed: the account
/// gets the same answers, byte for byte, and the databases agree again, whatever others asked in
/// between and whatever else is in the tables.
pub fn isolation()
    ensures { Isolation }
{}

/// Of two databases that agree on an account: what its rows are in the one, they are in the other.
/// And where they are the same in both, the two agree.
pub fn agreement()
    ensures rows { HoldTheSame }
    ensures again { AgreeAgain }
{}

/// Two runs in a row, of which the first left the connection open, are one run of both lists.
pub fn runs_join()
    ensures { RunsJoin }
{}

/// Applying events continues each account's life. Where the account's rows are what a life left,
/// and anybody's events are applied one after another, its rows afterwards are what a longer life
/// left. Behind the first that has each of the events that was answered and is the account's own or
/// of a device, with its answer. The same holds of the devices' rows. A message of HTTP is a list
/// of one event, and lists in a row are one.
pub fn lives_go_on_in_files<S: Alter>()
    ensures runs { LivesGoOnInRuns }
    ensures lists { LivesGoOnInLists S.Store }
    ensures messages { MessagesAreEvents S.Store }
    ensures join { ListsJoin S.Store }
{}

/// A life begins where the tables are made, and stays where they are opened or migrated: nothing is
/// told there. So it goes on from process to process over one file.
pub fn lives_stay_in_files<S: Alter>()
    ensures begin { LivesBegin }
    ensures open { LivesAreOpened S.Store }
    ensures migrate { LivesAreMigrated S.Store }
{}

/// Over a crash the life is found with all that the account was told, and behind that at most the
/// event that was under way, once.
pub fn lives_are_found<S: Alter>()
    ensures answered { AnsweredIsFound S.Store }
    ensures under_way { UnderWayIsFound S.Store }
    ensures lists { ListsAreFound S.Store }
{}
