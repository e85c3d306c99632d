//! The work between the turns of peers: a backup is made slice by slice, and accounts are gathered
//! for the print room's page. Two settings stand here too: whether serving is to end, and what the
//! pages hold requests to.
ghost use Rattle.std.specs.Prelude.{◌≡◌, false, IfOk, IsTrue, None, OnErr, Some};
ghost use Rattle.serve_peers.specs.Backups.{AsksBackup};
ghost use Rattle.serve_peers.specs.Copies.{copy_in};
ghost use Rattle.serve_peers.specs.Keeping.{DoesSlice, KeepsOn, MakesCopy, is_begun, is_wanted, stage_in};
ghost use Rattle.serve_peers.specs.Overviews.{GathersBy, GathersOn};
ghost use Rattle.serve_peers.specs.PageRules.{no_page_rules};

use crate::backup::{Backup, BackupTold, Stage, ask_slice, begin_backup};
use crate::copies::{Copies, SliceOutcome};
use crate::gathering::{Gathered, Gathering};
use crate::journal::Journal;
use crate::page_rules::PageRules;
use input_lines::BackupLine;
use sqlite::{Alter, Connection};
use std::alloc::{AllocError, Global};
use store_copy::CopyMaker;
use store_rounds::Rounds;

/// A backup, the print room's page, and two settings of serving itself.
pub struct Background {
    /// The backup that an operator asked for last.
    pub(crate) backup: Option<Backup>,
    /// What the print room's page shows.
    pub(crate) gathered: Gathered,
    /// Whether an operator asked that serving ends.
    pub(crate) ends: bool,
    /// What the pages hold requests to.
    pub(crate) page_rules: PageRules,
}

// By hand, in the place of `#[derive(Drop)]`: the head of lib.rt says why.
impl Drop for Background {
    fn drop(self) {
        let Background {
            backup: _,
            gathered: _,
            ends: _,
            page_rules: _,
        } = self;
    }
}

impl Background {
    /// Nothing goes on yet, at a moment. It takes no memory.
    pub(crate) fn new(alloc: Global, moment: u64) -> Background
        ensures backup { result.backup ≡ None }
        ensures ends { result.ends ≡ false }
        ensures page_rules { result.page_rules ≡ no_page_rules }
    {
        Background {
            backup: None,
            gathered: Gathered::nothing(alloc, moment),
            ends: false,
            page_rules: PageRules::NONE,
        }
    }

    /// Takes a line of a backup, which came at the moment, and answers what it is told.
    pub(crate) fn ask_backup(
        &mut self,
        alloc: Global,
        line: BackupLine<'_>,
        moment: u64,
    ) -> Result<BackupTold, AllocError>
        ensures asks { IfOk result
            (λ told. AsksBackup line.entry moment told self.old.backup self.new.backup) }
        ensures same { self.new ≡ record self.old { backup = self.new.backup } }
        ensures unchanged { OnErr result (self.new ≡ self.old) }
    {
        match line {
            BackupLine::Begin { file } => begin_backup(alloc, &mut self.backup, file, moment),
            BackupLine::Slice { file } => Ok(ask_slice(&mut self.backup, file, moment)),
        }
    }

    /// Does what the lines of a backup ask for: makes the copy's file, or does one slice. No round
    /// is under way.
    pub(crate) fn keep_backup<S: Alter, T: Alter, K: CopyMaker<Rows = Connection<T>>>(
        &mut self,
        alloc: Global,
        rounds: &mut Rounds<S>,
        journal: &mut Journal,
        copies: &mut Copies<T, K>,
    )
        ensures { KeepsOn S.Store T.Store self.old self.new rounds.old rounds.new
            journal.old journal.new (copy_in copies.old) (copy_in copies.new) }
    {
        let stage = self.backup_stage();
        if is_begun(stage) {
            self.make_copy(copies);
        } else if is_wanted(stage) {
            self.do_slice(alloc, rounds, journal, copies);
        }
    }

    /// The stage of the backup, if one was asked for.
    fn backup_stage(&self) -> Option<Stage>
        ensures { result ≡ stage_in self.now.backup }
    {
        match &self.backup {
            Some(backup) => Some(backup.stage),
            None => None,
        }
    }

    /// Makes the file of the backup that was begun. The backup is then ready for its first slice,
    /// or has failed.
    fn make_copy<T: Alter, K: CopyMaker<Rows = Connection<T>>>(&mut self, copies: &mut Copies<T, K>)
        requires { IsTrue (is_begun (stage_in self.old.backup)) }
        ensures { MakesCopy T.Store self.old self.new (copy_in copies.new) }
    {
        if let Some(backup) = &mut self.backup {
            backup.stage = if copies.make(backup.file.as_slice()) {
                Stage::Ready
            } else {
                Stage::Failed
            };
        }
    }

    /// Copies one slice, and keeps the backup's new stage. The journal watches the account that the
    /// slice leaves half copied.
    fn do_slice<S: Alter, T: Alter, K: CopyMaker<Rows = Connection<T>>>(
        &mut self,
        alloc: Global,
        rounds: &mut Rounds<S>,
        journal: &mut Journal,
        copies: &mut Copies<T, K>,
    )
        ensures { DoesSlice S.Store T.Store self.old self.new rounds.old rounds.new
            journal.old journal.new (copy_in copies.old) (copy_in copies.new) }
    {
        let (stage, account) = match copies.slice(alloc, rounds, journal.is_touched()) {
            SliceOutcome::More(account) => (Stage::Ready, account),
            SliceOutcome::Whole => (Stage::Whole, None),
            SliceOutcome::Failed => (Stage::Failed, None),
        };
        journal.add_slice(account);
        if let Some(backup) = &mut self.backup {
            backup.stage = stage;
        }
    }

    /// Goes on with what is gathered for the print room's page: one account is read at most. No
    /// round is under way.
    pub(crate) fn gather<S: Alter>(
        &mut self,
        alloc: Global,
        rounds: &mut Rounds<S>,
        journal: &mut Journal,
    )
        ensures { GathersBy S.Store self.old.gathered.under_way self.old self.new
            rounds.old rounds.new journal.old journal.new }
    {
        if let Some(gathering) = self.gathered.under_way.take() {
            self.go_on(gathering, alloc, rounds, journal);
        }
    }

    /// Does one step of what is gathered, and keeps what that came to.
    fn go_on<S: Alter>(
        &mut self,
        gathering: Gathering,
        alloc: Global,
        rounds: &mut Rounds<S>,
        journal: &mut Journal,
    )
        ensures { GathersOn S.Store gathering self.old self.new rounds.old rounds.new
            journal.old journal.new }
    {
        let stepped = gathering.step(alloc, rounds);
        journal.add_nothing();
        self.gathered.keep(stepped);
    }
}

/// Whether the file of the backup is still to be made.
fn is_begun(stage: Option<Stage>) -> bool
    ensures { result ≡ is_begun stage }
{
    matches!(stage, Some(Stage::Begun))
}

/// Whether a line has asked for a slice that was not done yet.
fn is_wanted(stage: Option<Stage>) -> bool
    ensures { result ≡ is_wanted stage }
{
    matches!(stage, Some(Stage::Wanted))
}
