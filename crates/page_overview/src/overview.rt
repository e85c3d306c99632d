//! An overview: what all accounts come to together, added one after another.

ghost use Rattle.std.specs.Prelude.{◌≡◌, ◌∷◌, ◌++◌, ◌<◌, ◌+◌, [], true, nat_le, vec_len, ℕ, List, OnOk, slice_index};
ghost use Rattle.page_overview.specs.Overviews.{Shows, Surveyed};
ghost use Rattle.page_overview.specs.Surveys.{told, IsInBounds};
ghost use Rattle.account_rules.specs.Months.{month_at};

use crate::days::MOST_DAYS;
use crate::line::account_line;
use crate::oldest::{put_begun, put_longest};
use crate::survey::Survey;
use account_rules::{Device, Moment, Name, month_of};
use ipp_coding::List;
use page_pages::{AccountLine, BegunLine, LongestLine};
use std::alloc::{AllocError, Global};

/// The most accounts that an overview takes: some ten megabytes.
pub const MOST_ACCOUNTS: usize = 100_000;

/// What the accounts that were surveyed come to together, in one month.
#[derive(Drop)]
pub struct Overview {
    /// When it was begun, in seconds since 1970-01-01T00:00:00Z, if it was.
    pub(crate) as_of: Option<u64>,
    pub(crate) month: u32,
    /// The devices, by name.
    pub(crate) devices: List<Device>,
    /// How many jobs have not ended.
    pub(crate) waiting: u64,
    /// How many of them a device began and has not settled.
    pub(crate) unsettled: u64,
    /// Units of those that were charged in the month beyond what the jobs' releases let them cost.
    pub(crate) beyond: u64,
    /// Units that were charged in the month.
    pub(crate) charged: u64,
    /// Units that were charged on each day of the month.
    pub(crate) days: [u64; MOST_DAYS],
    /// What a device began first, of what is not settled.
    pub(crate) begun: Vec<BegunLine>,
    /// What has waited longest.
    pub(crate) longest: Vec<LongestLine>,
    /// All accounts, in the order in which they were added.
    pub(crate) accounts: Vec<AccountLine>,
    /// Whether accounts were left out whose rows are damaged.
    pub(crate) skips: bool,
    /// Whether more accounts are open than it took.
    pub(crate) has_more: bool,
}

impl Overview {
    /// Makes an overview for a time when nothing was gathered yet.
    pub fn nothing(alloc: Global, month: u32) -> Overview
        ensures shows { Shows [] result }
        ensures as_of { result.as_of ≡ None }
    {
        let devices = List {
            items: Vec::new(alloc),
        };
        Overview::new(alloc, None, month, devices)
    }

    /// Makes an overview of no account yet, which begins at a moment, for its month.
    pub fn begin(alloc: Global, at: Moment, devices: List<Device>) -> Overview
        ensures shows { Shows [] result }
        ensures as_of { result.as_of ≡ Some at }
        ensures month { result.month ≡ month_at at }
        ensures devices { result.devices ≡ devices }
    {
        Overview::new(alloc, Some(at.seconds()), month_of(at), devices)
    }

    /// Makes an overview of no account yet.
    fn new(alloc: Global, as_of: Option<u64>, month: u32, devices: List<Device>) -> Overview
        ensures shows { Shows [] result }
        ensures as_of { result.as_of ≡ as_of }
        ensures month { result.month ≡ month }
        ensures devices { result.devices ≡ devices }
    {
        Overview {
            as_of,
            month,
            devices,
            waiting: 0,
            unsettled: 0,
            beyond: 0,
            charged: 0,
            days: [0; MOST_DAYS],
            begun: Vec::new(alloc),
            longest: Vec::new(alloc),
            accounts: Vec::new(alloc),
            skips: false,
            has_more: false,
        }
    }

    /// When it was begun, in seconds since 1970-01-01T00:00:00Z, if it was.
    pub fn as_of(&self) -> Option<u64>
        ensures { result ≡ self.now.as_of }
    {
        self.as_of
    }

    /// The month that it tells.
    pub fn month(&self) -> u32
        ensures { result ≡ self.now.month }
    {
        self.month
    }

    /// Whether it takes no more accounts.
    pub fn is_full(&self) -> bool
        ensures { result ≡ nat_le MOST_ACCOUNTS (vec_len self.now.accounts) }
    {
        self.accounts.len() >= MOST_ACCOUNTS
    }

    /// Has it tell from now on that there are more accounts.
    pub fn leave_rest(&mut self)
        ensures { self.new ≡ record self.old { has_more = true } }
    {
        self.has_more = true;
    }

    /// Has it tell from now on that accounts were left out whose rows are damaged.
    pub fn skip(&mut self)
        ensures { self.new ≡ record self.old { skips = true } }
    {
        self.skips = true;
    }

    /// Adds what an account comes to. Where memory runs out what it shows is no longer right.
    pub fn add(&mut self, account: Name, survey: &Survey) -> Result<(), AllocError>
        requires { IsInBounds survey.now }
        ensures shows { OnOk result ((surveys : List Surveyed) → Shows surveys self.old
            → Shows (surveys ++ (account, survey.now) ∷ []) self.new) }
        ensures as_of { self.new.as_of ≡ self.old.as_of }
        ensures month { self.new.month ≡ self.old.month }
        ensures devices { self.new.devices ≡ self.old.devices }
    {
        let jobs = survey.unfinished.as_slice();
        self.waiting = self.waiting.saturating_add(jobs.len() as u64);
        self.unsettled = self.unsettled.saturating_add(survey.summary.processing);
        self.beyond = self.beyond.saturating_add(survey.summary.beyond_then);
        self.charged = self.charged.saturating_add(survey.summary.charged_then);
        add_days(&mut self.days, &survey.days);
        put_begun(&mut self.begun, account, jobs)?;
        put_longest(&mut self.longest, account, jobs)?;
        self.accounts.push(account_line(account, survey))?;
        Ok(())
    }
}

/// Adds the units of each day, place by place.
fn add_days(days: &mut [u64; MOST_DAYS], more: &[u64; MOST_DAYS])
    ensures { (place : ℕ) → place < MOST_DAYS
        → slice_index days.new place ≡ told (slice_index days.old place + slice_index more.now place) }
{
    for place in 0..MOST_DAYS {
        days[place] = days[place].saturating_add(more[place]);
    }
}
