//! The sums over all accounts for the print room's page, gathered between the turns of peers, one
//! account at a step.
ghost use Rattle.std.specs.Prelude.{◌≡◌, [], Err, IfOk, None};
ghost use Rattle.page_overview.specs.Overviews.{Shows};
ghost use Rattle.page_overview.specs.Surveys.{IsInBounds};
ghost use Rattle.serve_peers.specs.Applying.{OnlyLooks};
ghost use Rattle.serve_peers.specs.Gathering.{asked_at, gathered_then, is_fresh, month_then, AreDevices, AreNext, Begins, IsDamaged, StepsOn, Surveys};

use account_rules::{Device, LAST_MONTH, Moment, Name, month_of};
use ipp_coding::List;
use page_overview::{Overview, Survey};
use rows_statements::{list_devices, next_accounts};
use rows_survey::survey;
use rows_tables::TableFault;
use sqlite::Alter;
use std::alloc::Global;
use store_rounds::Rounds;

/// For how many seconds what was gathered counts as fresh: who asks for the page after that has it
/// gathered anew.
const FRESH: u64 = 10;

/// What the print room's page shows, and what is gathered for it.
pub struct Gathered {
    /// What the page shows: what was gathered last, or nothing yet.
    pub(crate) shown: Overview,
    pub(crate) under_way: Option<Gathering>,
}

// By hand, in the place of `#[derive(Drop)]`: the head of lib.rt says why.
impl Drop for Gathered {
    fn drop(self) {
        let Gathered {
            shown: _,
            under_way: _,
        } = self;
    }
}

/// What is gathered, and how far it is.
pub enum Gathering {
    /// Since this moment it is asked for.
    Begun(Moment),
    /// The devices are known, and accounts are added.
    Adds(Adding),
}

// By hand, in the place of `#[derive(Drop)]`: the head of lib.rt says why.
impl Drop for Gathering {
    fn drop(self) {
        match self {
            Gathering::Begun(_) => {}
            Gathering::Adds(_) => {}
        }
    }
}

/// An overview to which accounts are added, by their names.
#[derive(Drop)]
pub struct Adding {
    pub(crate) overview: Overview,
    /// Names of accounts that come next.
    pub(crate) names: List<Name>,
    /// How many of them were taken.
    pub(crate) taken: usize,
}

/// What a step has come to.
pub(crate) enum Stepped {
    /// More steps are to come.
    More(Gathering),
    Whole(Overview),
    /// The storage failed, or memory ran out.
    GivenUp,
}

impl Gathered {
    /// Nothing was gathered yet, at a moment. It takes no memory.
    pub(crate) fn nothing(alloc: Global, moment: u64) -> Gathered
        ensures shows { Shows [] result.shown }
        ensures as_of { result.shown.as_of ≡ None }
        ensures rests { result.under_way ≡ None }
    {
        Gathered {
            shown: Overview::nothing(alloc, month_then(moment)),
            under_way: None,
        }
    }

    /// Begins to gather anew where what is shown is older than `FRESH` seconds. A request for the
    /// page calls this.
    pub(crate) fn ask(&mut self, moment: u64)
        ensures { self.new ≡ asked_at moment self.old }
    {
        if self.under_way.is_some() || is_fresh(self.shown.as_of(), moment) {
            return;
        }
        if let Some(at) = Moment::new(moment) {
            self.under_way = Some(Gathering::Begun(at));
        }
    }

    /// Keeps what a step came to: goes on with it, or shows what is whole, or gives it up.
    pub(crate) fn keep(&mut self, stepped: Stepped)
        ensures { self.new ≡ gathered_then stepped self.old }
    {
        match stepped {
            Stepped::More(gathering) => self.under_way = Some(gathering),
            Stepped::Whole(overview) => {
                self.shown = overview;
                self.under_way = None;
            }
            Stepped::GivenUp => self.under_way = None,
        }
    }
}

/// The month of a moment, and of one past 2099 the last month.
fn month_then(moment: u64) -> u32
    ensures { result ≡ month_then moment }
{
    match Moment::new(moment) {
        Some(at) => month_of(at),
        None => LAST_MONTH,
    }
}

/// Whether what was gathered at `as_of` is of the last `FRESH` seconds. Where the clock went back
/// since, it is not.
fn is_fresh(as_of: Option<u64>, moment: u64) -> bool
    ensures { result ≡ is_fresh as_of moment }
{
    match as_of {
        Some(at) => at <= moment && moment - at < FRESH,
        None => false,
    }
}

impl Gathering {
    /// Does the next step, which reads one account at most. No round is under way.
    pub(crate) fn step<S: Alter>(self, alloc: Global, rounds: &mut Rounds<S>) -> Stepped
        ensures { StepsOn S.Store self rounds.old rounds.new result }
    {
        match self {
            Gathering::Begun(at) => begin(alloc, rounds, at),
            Gathering::Adds(adding) => adding.step(alloc, rounds),
        }
    }
}

/// Begins an overview with all devices, and no account yet.
fn begin<S: Alter>(alloc: Global, rounds: &mut Rounds<S>, at: Moment) -> Stepped
    ensures { Begins S.Store at rounds.old rounds.new result }
{
    match read_devices(alloc, rounds) {
        Ok(devices) => Stepped::More(Gathering::Adds(Adding {
            overview: Overview::begin(alloc, at, devices),
            names: List {
                items: Vec::new(alloc),
            },
            taken: 0,
        })),
        Err(_) => Stepped::GivenUp,
    }
}

impl Adding {
    ghost use Rattle.serve_peers.specs.Gathering.{AddsAccount, AddsOn, AddsSurvey, FindsNames, FindsTo, LeavesOut};

    /// Adds the next account, or finds the names of further ones where all that were found are
    /// taken.
    fn step<S: Alter>(self, alloc: Global, rounds: &mut Rounds<S>) -> Stepped
        ensures { AddsOn S.Store self rounds.old rounds.new result }
    {
        match self.names.as_slice().get(self.taken).copied() {
            Some(account) => self.add(alloc, rounds, account),
            None => self.find(alloc, rounds),
        }
    }

    /// Finds the accounts that come next. If none does, the overview is whole, and if there are too
    /// many, it tells that.
    fn find<S: Alter>(self, alloc: Global, rounds: &mut Rounds<S>) -> Stepped
        ensures { FindsNames S.Store self rounds.old rounds.new result }
    {
        let behind = self.names.as_slice().last().copied();
        match read_names(alloc, rounds, behind) {
            Ok(names) => self.go_on(names),
            Err(_) => Stepped::GivenUp,
        }
    }

    /// Goes on with the names that were found. If there are none, the overview is whole; if it is
    /// full, it tells that accounts are left out.
    fn go_on(self, found: List<Name>) -> Stepped
        ensures { FindsTo self found result }
    {
        let mut overview = self.overview;
        if found.items.is_empty() {
            return Stepped::Whole(overview);
        }
        if overview.is_full() {
            overview.leave_rest();
            return Stepped::Whole(overview);
        }
        Stepped::More(Gathering::Adds(Adding {
            overview,
            names: found,
            taken: 0,
        }))
    }

    /// Adds an account, or leaves it out, if its rows are damaged.
    fn add<S: Alter>(self, alloc: Global, rounds: &mut Rounds<S>, account: Name) -> Stepped
        ensures { AddsAccount S.Store account self rounds.old rounds.new result }
    {
        match read_account(alloc, rounds, account, self.overview.month()) {
            Ok(survey) => self.with_survey(account, &survey),
            Err(TableFault::Damaged) => self.without(),
            Err(_) => Stepped::GivenUp,
        }
    }

    /// The overview with this account's figures added.
    fn with_survey(self, account: Name, survey: &Survey) -> Stepped
        requires { IsInBounds survey.now }
        ensures { AddsSurvey account survey.now self result }
    {
        let Adding {
            mut overview,
            names,
            taken,
        } = self;
        match overview.add(account, survey) {
            Ok(()) => Stepped::More(Gathering::Adds(Adding {
                overview,
                names,
                taken: taken.saturating_add(1),
            })),
            Err(_) => Stepped::GivenUp,
        }
    }

    /// The overview without this account, which it counts as one that was left out.
    fn without(self) -> Stepped
        ensures { LeavesOut self result }
    {
        let Adding {
            mut overview,
            names,
            taken,
        } = self;
        overview.skip();
        Stepped::More(Gathering::Adds(Adding {
            overview,
            names,
            taken: taken.saturating_add(1),
        }))
    }
}

// ---- what a step reads; `Storage` while a round is under way, since that may still be lost

/// All devices.
fn read_devices<S: Alter>(alloc: Global, rounds: &mut Rounds<S>) -> Result<List<Device>, TableFault>
    ensures looks { OnlyLooks S.Store rounds.old rounds.new }
    ensures told { IfOk result (λ devices. AreDevices S.Store devices rounds.old rounds.new) }
{
    if rounds.is_under_way() {
        return Err(TableFault::Storage);
    }
    list_devices(alloc, rounds)
}

/// The next names of accounts behind one, by name, or the first ones.
fn read_names<S: Alter>(
    alloc: Global,
    rounds: &mut Rounds<S>,
    behind: Option<Name>,
) -> Result<List<Name>, TableFault>
    ensures looks { OnlyLooks S.Store rounds.old rounds.new }
    ensures told { IfOk result (λ found. AreNext S.Store behind found rounds.old rounds.new) }
{
    if rounds.is_under_way() {
        return Err(TableFault::Storage);
    }
    next_accounts(alloc, rounds, behind)
}

/// The figures of one account, with what it was charged in the month.
fn read_account<S: Alter>(
    alloc: Global,
    rounds: &mut Rounds<S>,
    account: Name,
    month: u32,
) -> Result<Survey, TableFault>
    ensures looks { OnlyLooks S.Store rounds.old rounds.new }
    ensures told { IfOk result
        (λ survey. Surveys S.Store month account survey rounds.old rounds.new) }
    ensures bounds { IfOk result IsInBounds }
    ensures damaged { result ≡ Err TableFault.Damaged
        → IsDamaged S.Store month account rounds.old rounds.new }
{
    if rounds.is_under_way() {
        return Err(TableFault::Storage);
    }
    survey(alloc, rounds, account, month)
}
