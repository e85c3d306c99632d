//! Laws of the pages: no name breaks a row, buttons that are shown go through and cost what they
//! say, and no password shows.

ghost use Rattle.page_pages.specs.ButtonLaws.{ButtonsRelease, HoldsGoThrough, PricesAreReserved};
ghost use Rattle.page_pages.specs.PasswordLaws.{PasswordsAreKept};
ghost use Rattle.page_pages.specs.Tags.{NamesAreNoTags};

/// The tags of a job's row are the same whatever its name is.
pub fn names_are_no_tags()
    ensures { NamesAreNoTags }
{}

/// A held job has the button Release exactly where its owner's release goes through, with the units
/// that it then reserves.
#[tactic(auto, using(crate::proofs::Buttons::buttons_release))]
pub fn buttons_release()
    ensures { ButtonsRelease }
{}

/// A price is what a release at a device of its rate reserves.
pub fn prices_are_reserved()
    ensures { PricesAreReserved }
{}

/// A job whose owner is offered to hold it is held.
pub fn holds_go_through()
    ensures { HoldsGoThrough }
{}

/// A row tells whether a job has a password, and never which.
pub fn passwords_are_kept()
    ensures { PasswordsAreKept }
{}
