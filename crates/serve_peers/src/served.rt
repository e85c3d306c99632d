//! The rooms as one process serves them to everybody: the tables, the journal of what is applied to
//! them, in rounds or by itself, and the space that is kept for a full disk. What goes on beside
//! that is `Background`.
ghost use Rattle.std.specs.Prelude.{◌≡◌, ◌≢◌, ◌⊎◌, ◌≤◌, ◌++◌, ℕ, List, [], false, IsTrue, None, IfOk, OnErr, OnOk, option_map};
ghost use Rattle.serve_log.specs.Waits.{drafts_of, logged_of};
ghost use Rattle.serve_peers.specs.Journals.{asked_of, ends_of, is_full_of, is_lost_of, log_lags_of, hosts_of, moment_of, needs_password_of, open_of, rounds_of, shares_of, store_of};
ghost use Rattle.serve_peers.specs.Space.{lacks_space, spare_of};
ghost use Rattle.serve_space.specs.Spares.{any_length, held_of, takes_of};
ghost use Rattle.serve_peers.specs.Copies.{copy_in};
ghost use Rattle.page_overview.specs.Pages.{IsDesk, IsPage};
ghost use Rattle.serve_peers.specs.Gathering.{asked_at, gathers};
ghost use Rattle.serve_peers.specs.Overviews.{Gathers, gathered_of, shown_of, with_gathered};
ghost use Rattle.serve_peers.specs.Keeping.{AsksNext, KeepsBackup, OnlyKeeps, backup_of};
ghost use Rattle.serve_peers.specs.Turns.{AnswersNext, AppliesNext};
ghost use Rattle.serve_peers.specs.Rounds.{IsBegun, IsNotBegun, IsSettled};

use crate::applying::apply_unless_lost;
use crate::background::Background;
use crate::backup::BackupTold;
use crate::copies::Copies;
use crate::entry::Entry;
use crate::full_disk::{apply_or_free_space, log_from_space, note_space};
use crate::journal::Journal;
use crate::outcome::{is_done, size_of};
use crate::page_rules::PageRules;
use crate::request::needs_space;
use account_machine::{Answered, Name, Reply};
use account_questions::Question;
use bytes::Bytes;
use http::Request;
use input_http::Refusal;
use input_lines::BackupLine;
use room_store::Store;
use serve_log::{Door, EventLog, LineRefusal};
use serve_space::Spare;
use sqlite::{Alter, Connection};
use std::alloc::{AllocError, Global};
use std::fs::{File, Files};
use store_copy::CopyMaker;
use store_rounds::{Rounds, StoreFault};

/// A round is full once its answers have more bytes than this.
const MOST_TOLD: usize = 8_388_608;

/// The shared tables, the clock's moment, and a journal of all that was applied to them.
pub struct Served<S: Alter> {
    pub(crate) alloc: Global,
    pub(crate) rounds: Rounds<S>,
    pub(crate) moment: u64,
    /// All that was applied to them, of whichever connection, and the log of it. What the log tells
    /// beside that, as refusals, is no part of its value in a clause.
    pub(crate) journal: Journal,
    /// Whether what is applied shares a commit.
    pub(crate) shares: bool,
    /// Whether the commit of the last settled round failed, so that nothing of it was applied.
    pub(crate) is_lost: bool,
    /// What the peer whose turn it is has asked in the round.
    pub(crate) asked: Option<Entry>,
    /// How many bytes the answers have that wait for the round's commit.
    pub(crate) bytes_told: usize,
    /// The space that is kept for a full disk.
    pub(crate) spare: Spare,
    /// What goes on beside what is applied.
    pub(crate) background: Background,
}

// By hand, in the place of `#[derive(Drop)]`: the head of lib.rt says why.
impl<S: Alter + Drop> Drop for Served<S> {
    fn drop(self) {
        let Served {
            alloc: _,
            rounds: _,
            moment: _,
            journal: _,
            shares: _,
            is_lost: _,
            asked: _,
            bytes_told: _,
            spare: _,
            background: _,
        } = self;
    }
}

impl<S: Alter> Served<S> {
    /// Serves a store, from the moment on, in seconds since 1970-01-01T00:00:00Z. No round is under
    /// way, and no space is kept. It takes no memory.
    pub fn new(alloc: Global, store: Store<S>, moment: u64) -> Served<S>
        ensures store { store_of result ≡ store }
        ensures moment { moment_of result ≡ moment }
        ensures empty { rounds_of result ≡ [] }
        ensures none_open { open_of result ≡ [] }
        ensures alone { shares_of result ≡ false }
        ensures asked { asked_of result ≡ [] }
        ensures no_space { held_of (spare_of result) ≡ 0 }
        ensures takes_all { takes_of (spare_of result) ≡ any_length }
        ensures goes_on { ends_of result ≡ false }
        ensures no_backup { backup_of result ≡ None }
        ensures takes_without_password { needs_password_of result ≡ false }
        ensures answers_each_host { hosts_of result ≡ None }
    {
        Served {
            alloc,
            rounds: store.into_rounds(),
            moment,
            journal: Journal::new(),
            shares: false,
            is_lost: false,
            asked: None,
            bytes_told: 0,
            spare: Spare::none(),
            background: Background::new(alloc, moment),
        }
    }

    /// Keeps this space for a full disk, from now on.
    pub fn set_spare(&mut self, spare: Spare)
        ensures { self.new ≡ record self.old { spare = spare } }
    {
        self.spare = spare;
    }

    /// Has this log tell from now on what is applied. Nothing was asked yet.
    pub fn set_log(&mut self, log: EventLog)
        requires rounds { rounds_of self.old ≡ [] }
        requires none_open { open_of self.old ≡ [] }
        requires logged { logged_of log ≡ [] }
        requires drafts { drafts_of log ≡ [] }
        ensures rounds { rounds_of self.new ≡ [] }
        ensures none_open { open_of self.new ≡ [] }
        ensures same { self.new ≡ record self.old { journal = self.new.journal } }
    {
        self.journal.set_log(log);
    }

    /// Has the log open its file anew where that was moved away. It looks once a moment at most, and
    /// with `None`, where the clock tells no moment, at each call.
    pub fn look_at_log<R: Files<File = File>>(&mut self, files: &R, moment: Option<u64>)
        ensures { self.new ≡ self.old }
    {
        self.journal.look(files, moment);
    }

    /// Has the log tell that a door refused a line, and why.
    pub fn log_refused_line(&mut self, door: Door, why: LineRefusal)
        ensures { self.new ≡ self.old }
    {
        self.journal.refuse_line(self.moment, door, why);
    }

    /// Has the log tell that a request with the path was refused.
    pub fn log_refusal(&mut self, refusal: Refusal, path: &[u8])
        ensures { self.new ≡ self.old }
    {
        self.log_status(refusal.status().as_u16(), path);
    }

    /// Has the log tell that a request with the path was refused with the status.
    pub fn log_status(&mut self, status: u16, path: &[u8])
        ensures { self.new ≡ self.old }
    {
        self.journal.refuse_request(self.moment, status, path);
    }

    /// Whether lines wait that the file of the log has not taken.
    pub fn log_lags(&self) -> bool
        ensures { result ≡ log_lags_of self.now }
    {
        self.journal.log_lags()
    }

    /// Takes a piece of the disk for the kept space, where that is not whole.
    pub fn mend_space(&mut self)
        ensures same { self.new ≡ record self.old { spare = spare_of self.new } }
        ensures grows { held_of (spare_of self.old) ≤ held_of (spare_of self.new) }
        ensures takes { takes_of (spare_of self.old) ≤ takes_of (spare_of self.new) }
    {
        self.spare.mend();
    }

    /// The longest request, in bytes of its body, for which there is space.
    pub fn takes(&self) -> usize
        ensures { result ≡ takes_of (spare_of self.now) }
    {
        self.spare.takes()
    }

    /// Whether the disk lacks the space for what the request brings.
    pub(crate) fn lacks_space(&self, request: &Request<Bytes>) -> bool
        ensures { result ≡ lacks_space self.now request.now }
    {
        let body = request.body().as_slice();
        needs_space(body) && self.spare.takes() < body.len()
    }

    /// The moment at which what comes now counts as done.
    pub fn moment(&self) -> u64
        ensures { result ≡ moment_of self.now }
    {
        self.moment
    }

    /// The moment at which what comes from now on counts as done.
    pub fn set_moment(&mut self, moment: u64)
        ensures { self.new ≡ record self.old { moment = moment } }
    {
        self.moment = moment;
    }

    /// Begins a round: until it is settled what is applied shares a commit. Where none can begin,
    /// each is applied by itself.
    pub fn begin(&mut self)
        ensures under_way { IsTrue (shares_of self.old) → self.new ≡ self.old }
        ensures begins { shares_of self.old ≡ false
            → IsBegun S.Store self.old self.new ⊎ IsNotBegun S.Store self.old self.new }
    {
        if self.shares {
            return;
        }
        match self.rounds.begin() {
            Ok(()) => self.shares = true,
            Err(_) => self.journal.add_nothing(),
        }
    }

    /// Ends the round, if one is under way, by its commit: all that was applied in it is on the
    /// disk; or the commit fails, which `is_lost` tells, and nothing of it was applied.
    pub fn settle(&mut self)
        ensures alone { shares_of self.old ≡ false → self.new ≡ self.old }
        ensures settles { IsTrue (shares_of self.old) → IsSettled S.Store self.old self.new }
    {
        if !self.shares {
            return;
        }
        self.settle_round();
        log_from_space(&mut self.journal, &mut self.spare);
    }

    /// Commits the round that is under way, and keeps whether that failed.
    fn settle_round(&mut self)
        requires { IsTrue (shares_of self.old) }
        ensures { IsSettled S.Store self.old self.new }
    {
        let kept = self.rounds.commit().is_ok();
        self.journal.settle(kept);
        self.shares = false;
        self.is_lost = !kept;
        self.bytes_told = 0;
    }

    /// Whether what is applied shares a commit.
    pub fn is_shared(&self) -> bool
        ensures { result ≡ shares_of self.now }
    {
        self.shares
    }

    /// Whether so much was told in the round that nothing more is to be asked in it: all of it
    /// waits for the commit.
    pub fn is_full(&self) -> bool
        ensures { result ≡ is_full_of self.now }
    {
        self.bytes_told > MOST_TOLD
    }

    /// Whether the commit of the last settled round failed. Then nothing of it was applied, and
    /// each peer that asked in it has that applied again.
    pub fn is_lost(&self) -> bool
        ensures { result ≡ is_lost_of self.now }
    {
        self.is_lost
    }

    /// Begins the turn of a peer that has asked this in the round.
    pub fn set_asked(&mut self, asked: Option<Entry>)
        ensures { self.new ≡ record self.old { asked = asked } }
    {
        self.asked = asked;
    }

    /// Takes out what was asked in the round by the peer whose turn it was. The hall keeps it with
    /// that peer, until the round is settled.
    pub fn take_asked(&mut self) -> Option<Entry>
        ensures asked { result ≡ self.old.asked }
        ensures same { self.new ≡ record self.old { asked = None } }
    {
        self.asked.take()
    }

    /// Applies an entry, once, and answers what that came to. In a round a peer can ask one thing
    /// before that is settled; another is not applied, as if there were no memory for it.
    pub fn apply(&mut self, entry: Entry) -> Result<Result<Answered, StoreFault>, AllocError>
        ensures applies { IfOk result (λ answer. AppliesNext S.Store entry answer self.old self.new) }
        ensures unchanged { OnErr result (self.new ≡ self.old) }
        ensures second { OnErr result
            (IsTrue (shares_of self.old) × (asked_of self.old ≢ [])) }
    {
        if self.shares {
            return self.apply_in_shared_round(entry);
        }
        Ok(self.apply_in_own_round(&entry))
    }

    /// Applies an entry by itself, from kept space where the disk is full, and notes it as a round
    /// of one.
    pub(crate) fn apply_in_own_round(&mut self, entry: &Entry) -> Result<Answered, StoreFault>
        requires { shares_of self.old ≡ false }
        ensures { AppliesNext S.Store entry.now result self.old self.new }
    {
        let answer = apply_or_free_space(self.alloc, &mut self.rounds, &mut self.spare, entry);
        note_space(&mut self.spare, entry, &answer);
        self.log_beyond(entry, &answer);
        self.journal.add_unshared(entry, &answer);
        log_from_space(&mut self.journal, &mut self.spare);
        answer
    }

    /// Applies an entry in the round that is under way. The journal notes it, and so does `asked`,
    /// for its peer.
    fn apply_in_shared_round(
        &mut self,
        entry: Entry,
    ) -> Result<Result<Answered, StoreFault>, AllocError>
        requires { IsTrue (shares_of self.old) }
        ensures applies { IfOk result (λ answer. AppliesNext S.Store entry answer self.old self.new) }
        ensures unchanged { OnErr result (self.new ≡ self.old) }
        ensures second { OnErr result
            (IsTrue (shares_of self.old) × (asked_of self.old ≢ [])) }
    {
        if self.asked.is_some() {
            return Err(AllocError);
        }
        let answer = apply_unless_lost(self.alloc, &mut self.rounds, &entry);
        note_space(&mut self.spare, &entry, &answer);
        self.bytes_told = self.bytes_told.saturating_add(size_of(&answer));
        self.log_beyond(&entry, &answer);
        self.journal.add_shared(&entry, &answer);
        self.asked = Some(entry);
        Ok(answer)
    }

    /// Has the log tell what a settlement charged beyond what its job had reserved.
    fn log_beyond(&mut self, entry: &Entry, answer: &Result<Answered, StoreFault>)
        ensures { self.new ≡ self.old }
    {
        let units = self.rounds.take_beyond();
        if units > 0 && is_done(answer) {
            self.journal.tell_beyond(entry, units);
        }
    }

    /// Answers a question by the tables as they are. No round is under way: what one has changed
    /// may still be lost.
    pub fn answer_question(&mut self, question: Question) -> Result<Reply, StoreFault>
        requires { shares_of self.old ≡ false }
        ensures { AnswersNext S.Store question result self.old self.new }
    {
        let ends = question.asks_end();
        let answer = room_store::answer(self.alloc, &mut self.rounds, question);
        self.journal.add_nothing();
        self.background.ends = self.background.ends || ends;
        answer
    }

    // ---- in the background

    /// Whether an operator asked that serving ends.
    pub fn has_to_end(&self) -> bool
        ensures { result ≡ ends_of self.now }
    {
        self.background.ends
    }

    /// Sets what the pages hold requests to.
    pub fn set_page_rules(&mut self, rules: PageRules)
        ensures { self.new ≡ record self.old {
          background = record self.old.background { page_rules = rules };
        } }
    {
        self.background.page_rules = rules;
    }

    /// Whether the pages take no file without a password.
    pub fn needs_password(&self) -> bool
        ensures { result ≡ needs_password_of self.now }
    {
        self.background.page_rules.needs_password
    }

    /// The names of the Hosts that the pages answer, parted by commas. `None`: they answer each.
    pub fn hosts(&self) -> Option<&'static [u8]>
        ensures { option_map (λ names. names.now) result ≡ hosts_of self.now }
    {
        self.background.page_rules.hosts
    }

    /// Takes a line of a backup, and answers what it is told.
    pub(crate) fn ask_backup(&mut self, line: BackupLine<'_>) -> Result<BackupTold, AllocError>
        ensures asks { IfOk result (λ told. AsksNext line.entry told self.old self.new) }
        ensures unchanged { OnErr result (self.new ≡ self.old) }
    {
        self.background.ask_backup(self.alloc, line, self.moment)
    }

    /// Does what the lines of a backup ask for: makes the copy's file, or does one slice, where no
    /// round is under way.
    pub fn keep_backup<T: Alter, K: CopyMaker<Rows = Connection<T>>>(
        &mut self,
        copies: &mut Copies<T, K>,
    )
        ensures keeps { KeepsBackup S.Store T.Store self.old self.new
            (copy_in copies.old) (copy_in copies.new) }
        ensures nothing { OnlyKeeps S.Store self.old self.new }
    {
        if self.shares {
            return;
        }
        self.background
            .keep_backup(self.alloc, &mut self.rounds, &mut self.journal, copies);
    }

    /// Begins to gather all accounts for the print room's page, which somebody asks for, if what it
    /// shows is not of the last seconds.
    pub fn ask_overview(&mut self)
        ensures { self.new ≡ with_gathered self.old
            (asked_at (moment_of self.old) (gathered_of self.old)) }
    {
        self.background.gathered.ask(self.moment);
    }

    /// Whether accounts are being gathered for the print room's page.
    pub fn gathers(&self) -> bool
        ensures { result ≡ gathers (gathered_of self.now) }
    {
        self.background.gathered.under_way.is_some()
    }

    /// Appends the print room's page, by what was gathered last. It lists the accounts whose names
    /// begin with `front` and come behind the name `behind`.
    pub fn put_overview_page(
        &self,
        out: &mut Vec<u8>,
        front: Option<Name>,
        behind: Option<Name>,
    ) -> Result<(), AllocError>
        ensures { OnOk result ((page : List ℕ)
            × IsPage (shown_of self.now) (gathers (gathered_of self.now)) front behind page
            × (out.new.items ≡ out.old.items ++ page)) }
    {
        self.background
            .gathered
            .shown
            .put_page(out, self.gathers(), front, behind)
    }

    /// Appends the desk's first page, by what was gathered last. It lists accounts as the print
    /// room's page does.
    pub fn put_overview_desk(
        &self,
        out: &mut Vec<u8>,
        front: Option<Name>,
        behind: Option<Name>,
    ) -> Result<(), AllocError>
        ensures { OnOk result ((page : List ℕ)
            × IsDesk (shown_of self.now) (gathers (gathered_of self.now)) front behind page
            × (out.new.items ≡ out.old.items ++ page)) }
    {
        self.background
            .gathered
            .shown
            .put_desk(out, self.gathers(), front, behind)
    }

    /// Goes on with what is gathered for the print room's page: one account is read at most, where
    /// no round is under way.
    pub fn gather(&mut self)
        ensures gathers { Gathers S.Store self.old self.new }
        ensures nothing { OnlyKeeps S.Store self.old self.new }
    {
        if self.shares {
            return;
        }
        self.background
            .gather(self.alloc, &mut self.rounds, &mut self.journal);
    }

    /// Ends what is served, and hands back the connection to its tables. What a round that is under
    /// way has changed is on the disk only once it is settled. It takes no memory.
    pub fn close(self) -> Connection<S>
        ensures { result ≡ store_of self }
    {
        let Served {
            alloc: _,
            rounds,
            moment: _,
            journal: _,
            shares: _,
            is_lost: _,
            asked: _,
            bytes_told: _,
            spare: _,
            background: _,
        } = self;
        rounds.close()
    }
}
