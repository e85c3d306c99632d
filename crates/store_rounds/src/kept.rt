//! What is kept of the tables in memory: the cache of accounts, and the job that was found last.
//! Every change of a job moves the sums that are kept by what the job added before and adds now.
//! Where that is not known, or a call failed, everything is forgotten and read anew.

ghost use Rattle.std.specs.Prelude.{◌≡◌, ◌≤◌, ◌<◌, ◌+◌, ℕ, [], IfSome, None, Some, bytes_eq};
ghost use Rattle.account_rules.specs.Limits.{last_next_job, most_unfinished, most_units};
ghost use Rattle.store_rounds.specs.Kept.{added_by, kept_in, kept_of, known_of, unknown, HasCount, HasRow, HasSums, IsMoved, IsNothing, KeepsKnown, MakesKept, KeepsAccount, KeepsCount, KeepsJob, FollowsMaking, FollowsMove, FollowsOpening, KeepsSums, MovesKept, MovesTo, ForgetsAfterFault};
ghost use Rattle.rows_tables.specs.Accounts.{IsAccount};

use crate::cache::{Accounts, Known, find, no_accounts, set};
use account_rules::{
    Account, Job, LAST_JOB, LAST_MOMENT, MOST_UNFINISHED, MOST_UNITS, Name, Standing,
};
use rows_tables::TableFault;
use std::alloc::Global;

/// What all jobs of an account reserve and were charged, in units of the quota.
#[derive(Clone, Copy)]
pub struct Sums {
    pub reserved: u64,
    pub charged: u64,
}

/// What one job adds to the sums and the count of its account: the units that it reserves and was
/// charged, and 1 until it ends.
#[derive(Clone, Copy)]
pub(crate) struct Added {
    pub reserved: u64,
    pub charged: u64,
    pub unfinished: u64,
}

/// The job that was found last, and what it added to its account's sums then.
#[derive(Clone, Copy)]
pub(crate) struct Seen {
    pub account: Name,
    pub number: u32,
    pub added: Added,
}

/// What was read of the tables and still holds. Of accounts: their rows, their sums and how many of
/// their jobs are unfinished. And the job that was found last.
#[derive(Drop)]
pub(crate) struct Kept {
    pub accounts: Option<Accounts>,
    pub job: Option<Seen>,
}

impl Kept {
    /// Starts with nothing kept.
    pub(crate) fn new() -> Kept
        ensures { IsNothing result }
    {
        Kept {
            accounts: None,
            job: None,
        }
    }

    /// Makes the cache of accounts, unless there is one, or no memory for one.
    pub(crate) fn open(&mut self, alloc: Global)
        ensures accounts { kept_in self.new.accounts ≡ kept_in self.old.accounts }
        ensures job { self.new.job ≡ self.old.job }
    {
        if self.accounts.is_none() {
            self.accounts = no_accounts(alloc);
        }
    }

    /// Forgets everything.
    pub(crate) fn forget_all(&mut self)
        ensures { IsNothing self.new }
    {
        clear(&mut self.accounts);
        self.job = None;
    }

    /// What the cache has of the account, if it has it.
    fn find(&self, account: Name) -> Option<Known>
        ensures { result ≡ kept_of (kept_in self.now.accounts) account }
    {
        match &self.accounts {
            Some(accounts) => find(accounts, account),
            None => None,
        }
    }

    /// What is known of the account, which may be nothing.
    fn known(&self, account: Name) -> Known
        ensures { result ≡ known_of (kept_in self.now.accounts) account }
    {
        match self.find(account) {
            Some(known) => known,
            None => unknown(),
        }
    }

    /// The account's own row, where it is known.
    pub(crate) fn row(&self, account: Name) -> Option<Account>
        ensures kept { IfSome result (HasRow self.now account) }
        ensures in_range { IfSome result IsAccount }
    {
        sound(self.known(account).row)
    }

    /// What the jobs of the account reserve and were charged, where both are known.
    pub(crate) fn sums(&self, account: Name) -> Option<Sums>
        ensures kept { IfSome result (HasSums self.now account) }
        ensures bounds { IfSome result
            (λ sums. (sums.reserved ≤ most_units) × (sums.charged ≤ most_units)) }
    {
        let known = self.known(account);
        Some(Sums {
            reserved: at_most(known.reserved)?,
            charged: at_most(known.charged)?,
        })
    }

    /// How many jobs of the account have not ended, where it is known.
    pub(crate) fn unfinished(&self, account: Name) -> Option<u32>
        ensures kept { IfSome result (HasCount self.now account) }
        ensures few { IfSome result (λ count. count ≤ most_unfinished) }
    {
        few(self.known(account).unfinished)
    }

    /// What the job added to its account's sums, if it is the job that was found last.
    pub(crate) fn added_before(&self, account: Name, number: u32) -> Option<Added>
        ensures { IfSome result (λ added. self.now.job
            ≡ Some (record { account = account; number = number; added = added })) }
    {
        match self.job {
            Some(seen) => {
                if is_same(seen.account, account) && seen.number == number {
                    Some(seen.added)
                } else {
                    None
                }
            }
            None => None,
        }
    }

    /// Forgets everything after a call that failed, which may have undone changes.
    pub(crate) fn forget_after_fault<T, E>(&mut self, told: &Result<T, E>)
        ensures { ForgetsAfterFault told.now self.old self.new }
    {
        match told {
            Ok(_) => (),
            Err(_) => self.forget_all(),
        }
    }

    /// Keeps the row that a read of the account has found; forgets everything where the read
    /// failed.
    pub(crate) fn keep_account(&mut self, account: Name, told: &Result<Option<Account>, TableFault>)
        ensures { KeepsAccount account told.now self.old self.new }
    {
        match told {
            Ok(Some(row)) => self.set_row(account, *row),
            Ok(None) => (),
            Err(_) => self.forget_all(),
        }
    }

    /// Keeps the account's row, beside what else is known of the account.
    fn set_row(&mut self, account: Name, row: Account)
        ensures { KeepsKnown account
            (record (known_of (kept_in self.old.accounts) account) { row = Some row })
            self.old self.new }
    {
        let known = self.known(account);
        self.keep(
            account,
            Known {
                row: Some(row),
                ..known
            },
        );
    }

    /// Keeps the job that a read has found as the last; forgets everything where the read failed.
    pub(crate) fn keep_job(
        &mut self,
        account: Name,
        number: u32,
        told: &Result<Option<Job>, TableFault>,
    )
        ensures { KeepsJob account number told.now self.old self.new }
    {
        match told {
            Ok(Some(job)) => {
                self.job = Some(Seen {
                    account,
                    number,
                    added: added_by(&job.standing),
                });
            }
            Ok(None) => (),
            Err(_) => self.forget_all(),
        }
    }

    /// Keeps the sums that were added up; forgets everything where that failed.
    pub(crate) fn keep_sums(&mut self, account: Name, told: &Result<Sums, TableFault>)
        ensures { KeepsSums account told.now self.old self.new }
    {
        match told {
            Ok(sums) => self.set_sums(account, *sums),
            Err(_) => self.forget_all(),
        }
    }

    /// Keeps the account's sums, beside what else is known of the account.
    fn set_sums(&mut self, account: Name, sums: Sums)
        ensures { KeepsKnown account
            (record (known_of (kept_in self.old.accounts) account) {
              reserved = Some sums.reserved;
              charged = Some sums.charged;
            })
            self.old self.new }
    {
        let known = self.known(account);
        self.keep(
            account,
            Known {
                reserved: Some(sums.reserved),
                charged: Some(sums.charged),
                ..known
            },
        );
    }

    /// Keeps the number of unfinished jobs that were counted; forgets everything where that failed.
    pub(crate) fn keep_count(&mut self, account: Name, told: &Result<u32, TableFault>)
        ensures { KeepsCount account told.now self.old self.new }
    {
        match told {
            Ok(count) => self.set_count(account, u64::from(*count)),
            Err(_) => self.forget_all(),
        }
    }

    /// Keeps the number of unfinished jobs, beside what else is known of the account.
    fn set_count(&mut self, account: Name, count: u64)
        ensures { KeepsKnown account
            (record (known_of (kept_in self.old.accounts) account) { unfinished = Some count })
            self.old self.new }
    {
        let known = self.known(account);
        let unfinished = Some(count);
        self.keep(
            account,
            Known {
                unfinished,
                ..known
            },
        );
    }

    /// After the account was opened: forgets what is kept of it, and the last job. After a failure:
    /// forgets everything.
    pub(crate) fn follow_opening<E>(&mut self, account: Name, made: &Result<(), E>)
        ensures { FollowsOpening account made.now self.old self.new }
    {
        match made {
            Ok(()) => {
                self.keep(account, unknown());
                self.job = None;
            }
            Err(_) => self.forget_all(),
        }
    }

    /// After a job was made in the account, whose row was `was`: keeps its new row and sums. Where
    /// the row was not known, or the call failed: forgets everything.
    pub(crate) fn follow_making<E>(
        &mut self,
        account: Name,
        was: Option<Account>,
        job: &Job,
        made: &Result<(), E>,
    )
        requires { job.now.job < last_next_job }
        ensures { FollowsMaking account was job.now made.now self.old self.new }
    {
        match made {
            Ok(()) => match was {
                Some(row) => self.add_new_job(account, row, job),
                None => self.forget_all(),
            },
            Err(_) => self.forget_all(),
        }
    }

    /// Adds a job that was just made to what is kept of its account, and moves the account's next
    /// number behind it.
    fn add_new_job(&mut self, account: Name, row: Account, job: &Job)
        requires { job.now.job < last_next_job }
        ensures { MakesKept account row job.now self.old self.new }
    {
        let nothing = Added {
            reserved: 0,
            charged: 0,
            unfinished: 0,
        };
        let moved = moved_by(self.known(account), nothing, added_by(&job.standing));
        let next = Account {
            next_job: job.job + 1,
            ..row
        };
        let row = Some(next);
        self.keep(account, Known { row, ..moved });
        self.job = None;
    }

    /// After a job's standing became `is`: moves the account's sums by what the job added before
    /// (`was`) and adds now. Where `was` is not known, or the call failed: forgets everything.
    pub(crate) fn follow_move<E>(
        &mut self,
        account: Name,
        was: Option<Added>,
        is: &Standing,
        made: &Result<(), E>,
    )
        ensures { FollowsMove account was is.now made.now self.old self.new }
    {
        match made {
            Ok(()) => match was {
                Some(added) => self.shift(account, added, added_by(is)),
                None => self.forget_all(),
            },
            Err(_) => self.forget_all(),
        }
    }

    /// Takes what a job added from what is kept of its account, and adds what it adds now.
    fn shift(&mut self, account: Name, was: Added, is: Added)
        ensures { MovesKept account was is self.old self.new }
    {
        let moved = moved_by(self.known(account), was, is);
        self.keep(account, moved);
        self.job = None;
    }

    /// Puts what is known of the account in the cache, if there is one.
    fn keep(&mut self, account: Name, known: Known)
        ensures { KeepsKnown account known self.old self.new }
    {
        match &mut self.accounts {
            Some(accounts) => set(accounts, account, known),
            None => (),
        }
    }
}

/// Nothing known of an account.
fn unknown() -> Known
    ensures { result ≡ unknown }
{
    Known {
        row: None,
        reserved: None,
        charged: None,
        unfinished: None,
    }
}

/// Empties the cache, if there is one.
fn clear(accounts: &mut Option<Accounts>)
    ensures { kept_in accounts.new ≡ [] }
{
    match accounts {
        Some(accounts) => accounts.clear(),
        None => (),
    }
}

/// Whether the two are the same name.
fn is_same(one: Name, other: Name) -> bool
    ensures { result ≡ bytes_eq one other }
{
    one.bytes() == other.bytes()
}

/// What a job of this standing adds to the sums and the count of its account.
fn added_by(standing: &Standing) -> Added
    ensures { result ≡ added_by standing.now }
{
    Added {
        reserved: standing.reserved,
        charged: standing.charged,
        unfinished: if standing.ended.is_some() { 0 } else { 1 },
    }
}

/// The sums and the count of an account, less what a job added (`was`), with what it adds now
/// (`is`).
fn moved_by(known: Known, was: Added, is: Added) -> Known
    ensures { MovesTo was is known result }
{
    Known {
        row: known.row,
        reserved: moved(known.reserved, was.reserved, is.reserved),
        charged: moved(known.charged, was.charged, is.charged),
        unfinished: moved(known.unfinished, was.unfinished, is.unfinished),
    }
}

/// A sum, less what a job added (`was`), with what it adds now (`is`). `None` where it is not
/// known, or the result is no `u64`.
fn moved(sum: Option<u64>, was: u64, is: u64) -> Option<u64>
    ensures { IsMoved was is sum result }
{
    sum?.checked_sub(was)?.checked_add(is)
}

/// The row, if an account can have it. `None` where not, so that it is read anew.
fn sound(row: Option<Account>) -> Option<Account>
    ensures { IfSome result (λ it. (row ≡ Some it) × IsAccount it) }
{
    match row {
        Some(it) => {
            if it.opened <= LAST_MOMENT && 1 <= it.next_job && it.next_job <= LAST_JOB + 1 {
                Some(it)
            } else {
                None
            }
        }
        None => None,
    }
}

/// The sum, if an account's jobs can come to it. `None` where not, so that it is added up anew.
fn at_most(sum: Option<u64>) -> Option<u64>
    ensures { IfSome result (λ units. (sum ≡ Some units) × (units ≤ most_units)) }
{
    match sum {
        Some(units) => {
            if units <= MOST_UNITS {
                Some(units)
            } else {
                None
            }
        }
        None => None,
    }
}

/// The count, if an account may have so many unfinished jobs. `None` where not, so that they are
/// counted anew.
fn few(count: Option<u64>) -> Option<u32>
    ensures { IfSome result (λ few. (count ≡ Some few) × (few ≤ most_unfinished)) }
{
    match count {
        Some(count) => {
            if count <= u64::from(MOST_UNFINISHED) {
                Some(count as u32)
            } else {
                None
            }
        }
        None => None,
    }
}
