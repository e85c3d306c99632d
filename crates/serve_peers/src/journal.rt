//! The journal: a list of all that was applied, round after round, which only proofs read; and the
//! calls that keep the log of events, and the watch of a backup's account, in step with it.
ghost use Rattle.std.specs.Prelude.{◌≡◌, ◌∷◌, ◌++◌, [], false, true, map};
ghost use Rattle.std.specs.Option.{ForSome};
ghost use Rattle.serve_log.specs.Waits.{drafts_of, logged_of};
ghost use Rattle.serve_peers.specs.Logged.{TellsRounds, log_lags};
ghost use Rattle.serve_peers.specs.Tolds.{round_in};
ghost use Rattle.serve_peers.specs.Watching.{Watches};

use crate::account_watch::Watch;
use crate::entry::Entry;
use crate::logging::{
    draft, look, note, push_out, refuse_line, refuse_request, settle, tell_beyond,
};
use account_machine::{Answered, Name};
use http_server::Log as History;
use serve_log::{Door, EventLog, LineRefusal};
use std::fs::{File, Files};
use store_rounds::StoreFault;

/// All that was applied, of whichever connection, in two lists that only proofs read, and that take no
/// memory. Beside them stand the log of it, where one is kept, and what a backup watches.
pub struct Journal {
    /// The rounds that are over, each with whether it was kept: whether its commit succeeded. What
    /// is applied by itself is a round of one entry that was kept. For a question, and for a round
    /// that could not begin, an empty round that was not kept stands here.
    pub(crate) over: History<History<Entry, Result<Answered, StoreFault>>, bool>,
    /// The round that is under way.
    pub(crate) under_way: History<Entry, Result<Answered, StoreFault>>,
    pub(crate) log: Option<EventLog>,
    /// Whether something was asked in the round that is under way.
    pub(crate) is_open: bool,
    /// The account that a backup has under way.
    pub(crate) watch: Watch,
    // The lines of the log are those of the journal.
    pub ghost told: { ForSome log (λ log. TellsRounds log (map round_in over.items) under_way.items) },
    pub ghost none_open: { is_open ≡ false → under_way.items ≡ [] },
    pub ghost watched: { Watches watch (map round_in over.items) under_way.items },
}

// By hand, in the place of `#[derive(Drop)]`: the head of lib.rt says why.
impl Drop for Journal {
    fn drop(self) {
        let Journal {
            over: _,
            under_way: _,
            log: _,
            is_open: _,
            watch: _,
        } = self;
    }
}

impl Journal {
    ghost use Rattle.serve_peers.specs.Watching.{seen_by};
    ghost use Rattle.serve_peers.specs.Writing.{rounds_in, under_way_in};

    /// An empty one, without a log. It takes no memory.
    pub(crate) fn new() -> Journal
        ensures rounds { rounds_in result ≡ [] }
        ensures under_way { under_way_in result ≡ [] }
    {
        Journal {
            over: History::new(),
            under_way: History::new(),
            log: None,
            is_open: false,
            watch: Watch::begin(None, false, History::new()),
        }
    }

    /// Has the log tell from now on what is applied. Nothing was applied yet.
    pub(crate) fn set_log(&mut self, log: EventLog)
        requires rounds { rounds_in self.old ≡ [] }
        requires under_way { under_way_in self.old ≡ [] }
        requires logged { logged_of log ≡ [] }
        requires drafts { drafts_of log ≡ [] }
        ensures rounds { rounds_in self.new ≡ [] }
        ensures under_way { under_way_in self.new ≡ [] }
    {
        self.log = Some(log);
    }

    /// Notes an entry that was applied by itself, as a round of one that was kept.
    pub(crate) fn add_unshared(&mut self, entry: &Entry, told: &Result<Answered, StoreFault>)
        ensures rounds { rounds_in self.new
            ≡ rounds_in self.old ++ ((entry.now, told.now) ∷ [], true) ∷ [] }
        ensures under_way { under_way_in self.new ≡ under_way_in self.old }
    {
        note(&mut self.log, entry, told);
        self.watch.note(entry);
        let round = History::new().and(entry, told);
        self.watch.close(&round, true);
        self.over = self.over.and(&round, &true);
    }

    /// Notes an entry that was applied in the round that is under way.
    pub(crate) fn add_shared(&mut self, entry: &Entry, told: &Result<Answered, StoreFault>)
        ensures rounds { rounds_in self.new ≡ rounds_in self.old }
        ensures under_way { under_way_in self.new
            ≡ under_way_in self.old ++ (entry.now, told.now) ∷ [] }
    {
        draft(&mut self.log, entry, told);
        self.watch.note(entry);
        self.is_open = true;
        self.under_way = self.under_way.and(entry, told);
    }

    /// Notes an empty round, for a question that was answered or a round that could not begin.
    pub(crate) fn add_nothing(&mut self)
        ensures rounds { rounds_in self.new ≡ rounds_in self.old ++ ([], false) ∷ [] }
        ensures under_way { under_way_in self.new ≡ under_way_in self.old }
    {
        let nothing = History::new();
        self.watch.close(&nothing, false);
        self.over = self.over.and(&nothing, &false);
    }

    /// Notes an empty round for a slice of a backup, and watches from now on the account that the
    /// slice left half copied.
    pub(crate) fn add_slice(&mut self, account: Option<Name>)
        ensures rounds { rounds_in self.new ≡ rounds_in self.old ++ ([], false) ∷ [] }
        ensures under_way { under_way_in self.new ≡ under_way_in self.old }
        ensures account { self.new.watch.account ≡ account }
        ensures seen { seen_by self.new.watch ≡ rounds_in self.new }
    {
        let nothing = History::new();
        let over = self.over.and(&nothing, &false);
        let seen = self.over.and(&nothing, &false);
        self.watch = Watch::begin(account, self.is_open, seen);
        self.over = over;
    }

    /// Whether anything was asked of the account since the last slice of a backup.
    pub(crate) fn is_touched(&self) -> bool
        ensures { result ≡ self.now.watch.touched }
    {
        self.watch.touched
    }

    /// Ends the round that is under way. `kept`: its commit succeeded, and else nothing of it was
    /// applied.
    pub(crate) fn settle(&mut self, kept: bool)
        ensures rounds { rounds_in self.new
            ≡ rounds_in self.old ++ (under_way_in self.old, kept) ∷ [] }
        ensures under_way { under_way_in self.new ≡ [] }
    {
        settle(&mut self.log, kept);
        self.watch.close(&self.under_way, kept);
        self.over = self.over.and(&self.under_way, &kept);
        self.under_way = History::new();
        self.is_open = false;
    }

    /// Tries once more to write the lines that the log's file has not taken.
    pub(crate) fn push_out(&mut self)
        ensures rounds { rounds_in self.new ≡ rounds_in self.old }
        ensures under_way { under_way_in self.new ≡ under_way_in self.old }
    {
        push_out(&mut self.log);
    }

    /// Has the log tell that a settlement charged so many units beyond what its job had reserved.
    pub(crate) fn tell_beyond(&mut self, entry: &Entry, units: u64)
        ensures { self.new ≡ self.old }
    {
        tell_beyond(&mut self.log, entry, units);
    }

    /// Has the log tell that a door refused a line, and why.
    pub(crate) fn refuse_line(&mut self, moment: u64, door: Door, why: LineRefusal)
        ensures { self.new ≡ self.old }
    {
        refuse_line(&mut self.log, moment, door, why);
    }

    /// Has the log tell that a request for a path was refused with a status of HTTP.
    pub(crate) fn refuse_request(&mut self, moment: u64, status: u16, path: &[u8])
        ensures { self.new ≡ self.old }
    {
        refuse_request(&mut self.log, moment, status, path);
    }

    /// Has the log open its file anew where that was moved away, as `EventLog::look` does.
    pub(crate) fn look<R: Files<File = File>>(&mut self, files: &R, moment: Option<u64>)
        ensures { self.new ≡ self.old }
    {
        look(&mut self.log, files, moment);
    }

    /// Whether lines wait that the file of the log has not taken.
    pub(crate) fn log_lags(&self) -> bool
        ensures { result ≡ log_lags self.now.log }
    {
        match &self.log {
            Some(log) => log.is_behind(),
            None => false,
        }
    }
}
