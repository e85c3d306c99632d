//! The grants of an account, on the desk's page of it, and the month by which units are given back.

ghost use Rattle.std.specs.Prelude.{◌≡◌, ◌++◌, ◌≤◌, OnOk, flat_map};
ghost use Rattle.std.specs.List.{list_any};
ghost use Rattle.page_pages.specs.DeskGrants.{free_month, free_within, given_back_row, grant_item, grant_row, grants_card, grants_columns, is_for, table_of_grants};
ghost use Rattle.page_pages.specs.Frames.{card, remark};
ghost use Rattle.page_markup.specs.Parts.{html};

use crate::frame::{put_card, put_remark};
use crate::markup::{END_OF_CARD, END_OF_TABLE};
use crate::movement::FIRST_OF_GRANTS;
use crate::texts::{GRANTS, IS_GIVEN_BACK, MONTH, NO_GRANTS, UNITS_GIVEN};
use account_rules::{FIRST_MONTH, Grant};
use page_markup::{Piece, put_all};
use std::alloc::AllocError;

/// Appends the card of an account's grants.
#[tactic(auto, using(std::proofs::Common::append_assoc), unfolding(crate::specs::DeskGrants::grants_card))]
pub(crate) fn put_grants_card(out: &mut Vec<u8>, grants: &[Grant]) -> Result<(), AllocError>
    ensures { OnOk result (out.new.items ≡ out.old.items ++ grants_card grants.now) }
{
    put_card(out, "grants", GRANTS)?;
    put_table_of_grants(out, grants)?;
    out.extend_from_slice(END_OF_CARD.as_bytes())
}

/// Appends the table of the grants, or that there are none.
fn put_table_of_grants(out: &mut Vec<u8>, grants: &[Grant]) -> Result<(), AllocError>
    ensures { OnOk result (out.new.items ≡ out.old.items ++ table_of_grants grants.now) }
{
    if grants.is_empty() {
        return put_remark(out, NO_GRANTS);
    }
    put_table(out, grants)
}

/// Appends the table, with a row for each grant.
#[tactic(auto, using(std::proofs::Common::append_assoc))]
fn put_table(out: &mut Vec<u8>, grants: &[Grant]) -> Result<(), AllocError>
    ensures { OnOk result (out.new.items ≡ out.old.items ++ (html grants_columns
        ++ (flat_map grant_item grants.now ++ END_OF_TABLE.now))) }
{
    put_grants_columns(out)?;
    put_grant_items(out, grants)?;
    out.extend_from_slice(END_OF_TABLE.as_bytes())
}

/// Appends a row for each grant.
fn put_grant_items(out: &mut Vec<u8>, grants: &[Grant]) -> Result<(), AllocError>
    ensures { OnOk result (out.new.items ≡ out.old.items ++ flat_map grant_item grants.now) }
{
    for grant in grants {
        put_grant_item(out, grant)?;
    }
    Ok(())
}

/// Appends the row of a grant.
fn put_grant_item(out: &mut Vec<u8>, grant: &Grant) -> Result<(), AllocError>
    ensures { OnOk result (out.new.items ≡ out.old.items ++ grant_item grant.now) }
{
    if grant.month < FIRST_OF_GRANTS {
        return put_given_back_row(out, grant.pages);
    }
    put_grant_row(out, grant.month, grant.pages)
}

/// Gives the month of the next grant that gives units back: the last before January 2000 that has
/// none.
pub(crate) fn free_month(grants: &[Grant]) -> Option<u32>
    ensures { result ≡ free_month grants.now }
{
    free_within(grants, FIRST_OF_GRANTS - FIRST_MONTH)
}

/// Gives the last of so many months, from the first that there is on, that has no grant.
fn free_within(grants: &[Grant], count: u32) -> Option<u32>
    requires { count ≤ 360 }
    ensures { result ≡ free_within grants.now count }
{
    if count == 0 {
        return None;
    }
    let month = FIRST_MONTH + (count - 1);
    if has_grant(grants, month) {
        free_within(grants, count - 1)
    } else {
        Some(month)
    }
}

/// Whether the month has a grant.
fn has_grant(grants: &[Grant], month: u32) -> bool
    ensures { result ≡ list_any (is_for month) grants.now }
{
    grants.iter().any(|grant| is_for(month, grant))
}

/// Whether the grant is for the month.
fn is_for(month: u32, grant: &Grant) -> bool
    ensures { result ≡ is_for month grant.now }
{
    grant.month == month
}

/// Appends the start of the table of grants, with the heads of its columns.
fn put_grants_columns(out: &mut Vec<u8>) -> Result<(), AllocError>
    ensures { OnOk result (out.new.items ≡ out.old.items ++ html grants_columns) }
{
    put_all(
        out,
        &[
            Piece::Mark("<table class=\"dense\">\n<thead><tr><th scope=\"col\">"),
            Piece::Mark(MONTH),
            Piece::Mark("</th><th scope=\"col\" class=\"count\">"),
            Piece::Mark(UNITS_GIVEN),
            Piece::Mark("</th></tr></thead>\n<tbody>\n"),
        ],
    )
}

/// Appends the row of a grant for a month from January 2000 on.
fn put_grant_row(out: &mut Vec<u8>, month: u32, units: u32) -> Result<(), AllocError>
    ensures { OnOk result (out.new.items ≡ out.old.items ++ html (grant_row month units)) }
{
    put_all(
        out,
        &[
            Piece::Mark("<tr><th scope=\"row\">"),
            Piece::Month(month),
            Piece::Mark("</th><td class=\"count\">"),
            Piece::Number(units as u64),
            Piece::Mark("</td></tr>\n"),
        ],
    )
}

/// Appends the row of a grant by which units were given back.
fn put_given_back_row(out: &mut Vec<u8>, units: u32) -> Result<(), AllocError>
    ensures { OnOk result (out.new.items ≡ out.old.items ++ html (given_back_row units)) }
{
    put_all(
        out,
        &[
            Piece::Mark("<tr><th scope=\"row\">"),
            Piece::Mark(IS_GIVEN_BACK),
            Piece::Mark("</th><td class=\"count\">"),
            Piece::Number(units as u64),
            Piece::Mark("</td></tr>\n"),
        ],
    )
}
