//! The copy that a backup fills, slice by slice, between the turns of peers.
ghost use Rattle.std.specs.Prelude.{◌≡◌, ◌⊎◌, IsFalse, IsTrue, None, Some};
ghost use Rattle.serve_peers.specs.Copies.{CopiesOn, IsNewCopy, SlicesOn};
ghost use Rattle.serve_peers.specs.Copies.{anew_left, begun_anew, most_at, under_way};

use account_rules::Name;
use room_store::{Refused, Store};
use rows_tables::TableFault;
use sqlite::{Alter, Connection};
use std::alloc::Global;
use store_copy::{CopyMaker, Progress, copy_slice, start_again};
use store_rounds::Rounds;

/// How many jobs of an account a slice copies at most.
const MOST_JOBS: u32 = 32;

/// How many times the copy of an account begins anew because the account was changed meanwhile.
/// After that the account is copied in one slice, so that a backup ends even if somebody goes on to
/// print.
const MOST_ANEW: u32 = 3;

/// A copy that is under way, and how far it has come.
pub struct CopyUnderWay<T: Alter> {
    pub(crate) rows: Connection<T>,
    pub(crate) progress: Progress,
    /// How often the account that is under way has begun anew.
    pub(crate) anew: u32,
}

// By hand, in the place of `#[derive(Drop)]`: the head of lib.rt says why.
impl<T: Alter + Drop> Drop for CopyUnderWay<T> {
    fn drop(self) {
        let CopyUnderWay {
            rows: _,
            progress: _,
            anew: _,
        } = self;
    }
}

impl<T: Alter> CopyUnderWay<T> {
    /// The connection to the copy alone.
    fn into_rows(self) -> Connection<T>
        ensures { result ≡ self.rows }
    {
        let CopyUnderWay {
            rows,
            progress: _,
            anew: _,
        } = self;
        rows
    }

    /// The connection, how far the copy is, and how often its account has begun anew.
    fn into_parts(self) -> (Connection<T>, Progress, u32)
        ensures { result ≡ (self.rows, self.progress, self.anew) }
    {
        let CopyUnderWay {
            rows,
            progress,
            anew,
        } = self;
        (rows, progress, anew)
    }
}

/// Who makes the files of copies, and the copy that is under way.
pub struct Copies<T: Alter, K> {
    pub(crate) maker: K,
    pub(crate) copy: Option<CopyUnderWay<T>>,
}

// By hand, in the place of `#[derive(Drop)]`: the head of lib.rt says why.
impl<T: Alter + Drop, K: Drop> Drop for Copies<T, K> {
    fn drop(self) {
        let Copies { maker: _, copy: _ } = self;
    }
}

/// What a slice has come to.
pub(crate) enum SliceOutcome {
    /// More slices are to come. This account is half copied, if one is.
    More(Option<Name>),
    Whole,
    Failed,
}

impl<T: Alter, K: CopyMaker<Rows = Connection<T>>> Copies<T, K> {
    ghost use Rattle.serve_peers.specs.Copies.{copy_in};

    /// No copy is under way.
    pub fn new(maker: K) -> Copies<T, K>
        ensures { copy_in result ≡ None }
    {
        Copies { maker, copy: None }
    }

    /// Makes the file of a copy, with tables that have no row, and answers whether it could. The
    /// copy that was under way is given up.
    pub(crate) fn make(&mut self, file: &[u8]) -> bool
        ensures made { IsTrue result → IsNewCopy T.Store (copy_in self.new) }
        ensures none { IsFalse result → copy_in self.new ≡ None }
    {
        if let Some(older) = self.copy.take() {
            self.maker.give_up(older.into_rows());
        }
        match self.maker.make(file) {
            Some(rows) => self.begin(rows),
            None => false,
        }
    }

    /// Makes the tables in the new file, and keeps it as the copy that is under way.
    fn begin(&mut self, rows: Connection<T>) -> bool
        requires { copy_in self.old ≡ None }
        ensures made { IsTrue result → IsNewCopy T.Store (copy_in self.new) }
        ensures none { IsFalse result → copy_in self.new ≡ None }
    {
        match Store::create(rows) {
            Ok(store) => {
                self.put(CopyUnderWay {
                    rows: store.close(),
                    progress: Progress::UpTo(None),
                    anew: 0,
                });
                true
            }
            Err(Refused { connection, .. }) => {
                self.maker.give_up(connection);
                false
            }
        }
    }

    /// Keeps this copy as the one that is under way. One that was there is given up.
    fn put(&mut self, copied: CopyUnderWay<T>)
        ensures { copy_in self.new ≡ Some copied }
    {
        if let Some(older) = self.copy.replace(copied) {
            self.maker.give_up(older.into_rows());
        }
    }

    /// Does the next slice of the copy. Where the account under way was `touched` since the last
    /// one it begins anew. No round is under way.
    pub(crate) fn slice<S: Alter>(
        &mut self,
        alloc: Global,
        source: &mut Rounds<S>,
        touched: bool,
    ) -> SliceOutcome
        ensures { CopiesOn S.Store T.Store touched source.old source.new
            result (copy_in self.old) (copy_in self.new) }
    {
        let Some(copied) = self.copy.take() else {
            return SliceOutcome::Failed;
        };
        let (mut rows, progress, anew) = copied.into_parts();
        let anew = begun_anew(touched, anew);
        match slice_on(alloc, source, &mut rows, progress, touched, most_at(anew)) {
            Ok(Some(progress)) => {
                let account = under_way(&progress);
                let anew = anew_left(&progress, anew);
                self.put(CopyUnderWay {
                    rows,
                    progress,
                    anew,
                });
                SliceOutcome::More(account)
            }
            Ok(None) => self.close(rows),
            Err(_) => {
                self.maker.give_up(rows);
                SliceOutcome::Failed
            }
        }
    }

    /// Closes the file of a copy that is whole. It has failed where the file can't be closed.
    fn close(&mut self, rows: Connection<T>) -> SliceOutcome
        ensures done { (result ≡ SliceOutcome.Whole) ⊎ (result ≡ SliceOutcome.Failed) }
        ensures same { copy_in self.new ≡ copy_in self.old }
    {
        if self.maker.close(rows) {
            SliceOutcome::Whole
        } else {
            SliceOutcome::Failed
        }
    }
}

/// How often the account under way has begun anew: once more, where it was touched since the last
/// slice.
fn begun_anew(touched: bool, anew: u32) -> u32
    ensures { result ≡ begun_anew touched anew }
{
    if touched {
        return anew.saturating_add(1);
    }
    anew
}

/// How often the account that a slice leaves half copied has begun anew, or 0 where it leaves none.
fn anew_left(progress: &Progress, anew: u32) -> u32
    ensures { result ≡ anew_left progress.now anew }
{
    match progress {
        Progress::Within { .. } => anew,
        _ => 0,
    }
}

/// How many jobs a slice copies of an account that has begun anew so often; `None` for all of them.
fn most_at(anew: u32) -> Option<u32>
    ensures { result ≡ most_at anew }
{
    if anew < MOST_ANEW {
        return Some(MOST_JOBS);
    }
    None
}

/// The account that is half copied, if there is one.
fn under_way(progress: &Progress) -> Option<Name>
    ensures { result ≡ under_way progress.now }
{
    match progress {
        Progress::Within { account, .. } => Some(*account),
        _ => None,
    }
}

/// Does the next slice, and answers how far the copy has come then, or `None` where it is whole. An
/// account that was touched is first taken out of the copy, and begins anew. While a round is under
/// way nothing is copied, and the answer is `Storage`.
fn slice_on<S: Alter, T: Alter>(
    alloc: Global,
    source: &mut Rounds<S>,
    rows: &mut Connection<T>,
    progress: Progress,
    touched: bool,
    most: Option<u32>,
) -> Result<Option<Progress>, TableFault>
    ensures { SlicesOn S.Store T.Store touched progress most source.old source.new
        result rows.old rows.new }
{
    if source.is_under_way() {
        return Err(TableFault::Storage);
    }
    let from = if touched {
        start_again(rows, &progress)?
    } else {
        progress
    };
    copy_slice(alloc, source, rows, &from, most)
}
