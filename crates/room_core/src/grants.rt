//! Finds, sums and adds grants in the list that a room in memory keeps. The server keeps accounts
//! in tables, and does not use this.

ghost use Rattle.std.specs.Prelude.{◌≡◌, ◌≤◌, ◌++◌, ◌∷◌, [], ◌==◌, pos, find, OnOk, OnErr};
ghost use Rattle.std.specs.Option.{option_map};
ghost use Rattle.std.specs.List.{sum_by};
ghost use Rattle.account_rules.specs.Limits.{most_units};
ghost use Rattle.room_core.specs.ProofRoomLists.{by_month};
ghost use Rattle.account_state.specs.Sums.{pages_by};

use account_rules::Grant;
use ipp_coding::List;
use std::alloc::AllocError;

/// Finds the pages that were granted for the month.
pub(crate) fn find_pages(grants: &[Grant], month: u32) -> Option<u32>
    ensures { result
        ≡ option_map (λ grant. grant.pages) (find (λ grant. grant.month == month) grants.now) }
{
    grants
        .iter()
        .find(|grant| grant.month == month)
        .map(|grant| grant.pages)
}

/// Adds up the pages that were granted for the months up to the given one.
pub(crate) fn pages_up_to(grants: &[Grant], month: u32) -> i64
    requires { sum_by (λ grant. pages_by month (by_month grant)) grants.now ≤ most_units }
    ensures { result ≡ pos (sum_by (λ grant. pages_by month (by_month grant)) grants.now) }
{
    let pages: u64 = grants.iter().map(|grant| pages_by(grant, month)).sum();
    pages as i64
}

/// The pages of the grant, where its month is at most the given one, else 0.
fn pages_by(grant: &Grant, month: u32) -> u64
    ensures { result ≡ pages_by month (by_month grant.now) }
{
    if grant.month <= month {
        grant.pages as u64
    } else {
        0
    }
}

/// Adds the grant.
pub(crate) fn push_grant(grants: &mut List<Grant>, grant: Grant) -> Result<(), AllocError>
    ensures pushed { OnOk result (grants.new ≡ grants.old ++ grant ∷ []) }
    ensures unchanged { OnErr result (grants.new ≡ grants.old) }
{
    grants.items.push(grant)?;
    Ok(())
}
