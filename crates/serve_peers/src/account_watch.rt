//! Whether anything was asked of the account that a backup has half copied, from one slice to the
//! next.
ghost use Rattle.std.specs.Prelude.{◌≡◌, ◌||◌, ◌∷◌, ◌++◌, [], false};
ghost use Rattle.serve_peers.specs.Watching.{touches};

use crate::entry::Entry;
use account_machine::{Answered, Name};
use http_server::Log as History;
use store_rounds::StoreFault;

/// The rounds that are over: what was asked in each, and whether it was kept, which means that its
/// commit succeeded. Only proofs read it, and at run time it takes no memory.
pub(crate) type EndedRounds = History<History<Entry, Result<Answered, StoreFault>>, bool>;

/// The account that is watched, and whether anything was asked of it. The next slice of the backup
/// reads that. Both lists of rounds are for proofs alone.
#[derive(Drop)]
pub struct Watch {
    pub(crate) account: Option<Name>,
    pub(crate) touched: bool,
    /// The rounds that were over as the watch began.
    pub(crate) seen: EndedRounds,
    /// Those that are over since.
    pub(crate) since: EndedRounds,
}

impl Watch {
    /// Begins to watch an account, or nobody's with `None`. `touched`: something was asked in the
    /// round that is under way, perhaps of this account. `seen`: the rounds that are over.
    pub(crate) fn begin(account: Option<Name>, touched: bool, seen: EndedRounds) -> Watch
        ensures account { result.account ≡ account }
        ensures touched { result.touched ≡ touched }
        ensures seen { result.seen ≡ seen }
        ensures since { result.since.items ≡ [] }
    {
        Watch {
            account,
            touched,
            seen,
            since: History::new(),
        }
    }

    /// Takes note that something was asked, and whether it was asked of the account.
    pub(crate) fn note(&mut self, entry: &Entry)
        ensures { self.new ≡ record self.old {
          touched = self.old.touched || touches self.old.account entry.now;
        } }
    {
        self.touched = self.touched || self.is_of(entry);
    }

    /// Whether this was asked of the account that is watched.
    fn is_of(&self, entry: &Entry) -> bool
        ensures { result ≡ touches self.now.account entry.now }
    {
        match self.account {
            Some(account) => entry.is_of(account),
            None => false,
        }
    }

    /// Adds a round that has ended to those since the watch began, with whether its commit
    /// succeeded (`kept`). The watch goes on, and nothing happens at run time.
    pub(crate) fn close(&mut self, round: &History<Entry, Result<Answered, StoreFault>>, kept: bool)
        ensures account { self.new.account ≡ self.old.account }
        ensures touched { self.new.touched ≡ self.old.touched }
        ensures seen { self.new.seen ≡ self.old.seen }
        ensures since { self.new.since.items
            ≡ self.old.since.items ++ (round.now, kept) ∷ [] }
    {
        self.since = self.since.and(round, &kept);
    }
}
