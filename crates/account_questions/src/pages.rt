//! Writes the owner's page, the statement and the pages of the desk, with the figures that were looked
//! up.

ghost use Rattle.std.specs.Prelude.{◌≡◌, ◌≤◌, IfOk};
ghost use Rattle.page_pages.specs.DeskAccounts.{desk_account_page};
ghost use Rattle.page_pages.specs.DeskDevices.{devices_page};
ghost use Rattle.page_pages.specs.Owners.{owner_page};
ghost use Rattle.page_pages.specs.Statements.{statement_page};
ghost use Rattle.account_rules.specs.Limits.{most_units};

use account_rules::Device;
use ipp_coding::List;
use page_pages::{
    DeskAccount, Owner, Statement, put_desk_account, put_devices_page, put_owner_page,
    put_statement,
};
use std::alloc::{AllocError, Global};

/// How many jobs that have ended the owner's page and that of the desk show.
pub const MOST_SHOWN: u32 = 20;

/// Writes the page of an account's owner as bytes.
pub fn owner_page(alloc: Global, owner: &Owner) -> Result<List<u8>, AllocError>
    requires granted { owner.now.granted ≤ most_units }
    requires reserved { owner.now.reserved ≤ most_units }
    requires charged { owner.now.charged ≤ most_units }
    ensures bytes { IfOk result (λ page. page ≡ owner_page owner.now) }
{
    let mut items = Vec::new(alloc);
    put_owner_page(&mut items, owner)?;
    Ok(List { items })
}

/// Writes a statement as bytes.
pub fn statement_page(alloc: Global, statement: &Statement) -> Result<List<u8>, AllocError>
    requires granted { statement.now.granted ≤ most_units }
    requires reserved { statement.now.reserved ≤ most_units }
    requires charged { statement.now.charged ≤ most_units }
    ensures bytes { IfOk result (λ page. page ≡ statement_page statement.now) }
{
    let mut items = Vec::new(alloc);
    put_statement(&mut items, statement)?;
    Ok(List { items })
}

/// Writes the desk's page of an account as bytes.
pub fn desk_page(alloc: Global, shown: &DeskAccount) -> Result<List<u8>, AllocError>
    requires granted { shown.now.granted ≤ most_units }
    requires reserved { shown.now.reserved ≤ most_units }
    requires charged { shown.now.charged ≤ most_units }
    ensures bytes { IfOk result (λ page. page ≡ desk_account_page shown.now) }
{
    let mut items = Vec::new(alloc);
    put_desk_account(&mut items, shown)?;
    Ok(List { items })
}

/// Writes the desk's page of devices as bytes.
pub fn devices_page(alloc: Global, devices: &[Device]) -> Result<List<u8>, AllocError>
    ensures { IfOk result (λ page. page ≡ devices_page devices.now) }
{
    let mut items = Vec::new(alloc);
    put_devices_page(&mut items, devices)?;
    Ok(List { items })
}
