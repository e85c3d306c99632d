//! Laws on your quota: grants, reservations and charges add up, by what was done, and so do
//! statements. Nobody calls them at run time; docs/PROMISES.md lists them.

ghost use Rattle.account_laws.specs.QuotaAccount.{AccountsBalance, ReleasesOweNothing, SettlementsCharge};
ghost use Rattle.account_laws.specs.StatementsAddUp.{MonthsJoin, StatementsAddUp};

/// Law: the account of your quota balances. It was granted what the grants up to a month granted, and
/// charged what your settlements charged. What releases of your jobs reserved is reserved still, or
/// a hold, a cancel or a settlement gave it back. What is reserved and what was charged is at most
/// all that was granted and what devices counted beyond what was reserved for it.
#[tactic(auto, using(crate::proofs::QuotaAccounts::accounts_balance))]
pub fn accounts_balance()
    ensures { AccountsBalance }
{}

/// Law: a release takes no more than is left. Whoever releases your job, nothing is owed then.
#[tactic(auto, using(crate::proofs::QuotaAccounts::releases_owe_nothing))]
pub fn releases_owe_nothing()
    ensures { ReleasesOweNothing }
{}

/// Law: a settlement charges what the device counted, times the rate that the last release of the
/// job fixed, and gives back all that the job had reserved.
#[tactic(auto, using(crate::proofs::QuotaAccounts::settlements_charge))]
pub fn settlements_charge()
    ensures { SettlementsCharge }
{}

/// Law: a statement adds up. It opens with what was granted for months before, less what jobs were
/// charged that ended before. Its rows, each grant for its months and each job that ended in them,
/// lead from there to what it closes with, which is the same of the months up to its last.
pub fn statements_add_up()
    ensures { StatementsAddUp }
{}

/// Law: what one statement closes with, the next opens with, whatever was asked in between, unless
/// that was a grant for a month that had ended, or a settlement at a moment in one.
pub fn months_join()
    ensures { MonthsJoin }
{}
