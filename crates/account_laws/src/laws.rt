//! Laws on an account as a whole: its room keeps its rules, and stands as its owner was told.
//! Nobody calls them at run time; docs/PROMISES.md lists them.

ghost use Rattle.account_laws.specs.AsksLieWithin.{AsksLieWithin};
ghost use Rattle.account_laws.specs.CalendarMonths.{MonthsAreTheCalendars};
ghost use Rattle.account_laws.specs.DocumentsKept.{DocumentsGoWithTheirJobs};
ghost use Rattle.account_laws.specs.LimitsTold.{EventsLieWithin, MomentsEnd, NamesAreThese, NamesGoByTheirBytes};
ghost use Rattle.account_laws.specs.NothingElseKept.{NothingElseIsKept};
ghost use Rattle.account_laws.specs.RoomsStay.{RoomsStay};
ghost use Rattle.account_laws.specs.StandsAsTold.{LeavesAsTold};

/// Law: your account keeps its rules, and the devices keep names and rates, as long as the events
/// of your life lie within their limits.
#[tactic(auto, using(crate::proofs::RoomsStay::rooms_stay))]
pub fn rooms_stay()
    ensures { RoomsStay }
{}

/// Law: whatever bytes you send, what a request that passes its checks asks lies within the limits,
/// field by field.
pub fn asks_lie_within()
    ensures { AsksLieWithin }
{}

/// Law: your account stands as you were told, each job with what its maker asked, what was sent for
/// it and where the answers since have it; its grants as they were granted; and the devices as the
/// lines on them were answered.
#[tactic(auto, using(crate::proofs::AsTold::leaves_as_told))]
pub fn leaves_as_told()
    ensures { LeavesAsTold }
{}

/// Law: a moment lies in the month that the calendar gives. Grants count from that month on, and
/// charges in it.
#[tactic(auto, using(crate::proofs::CalendarMonths::months_are_the_calendars))]
pub fn months_are_the_calendars()
    ensures { MonthsAreTheCalendars }
{}

/// Law: all that there is of your account was asked and told. Two lives that tell the same leave the
/// same account, with every job and every document, and the same devices: nothing else is kept. Each
/// document is one that was sent for a job, and is kept until that ends.
#[tactic(auto, using(crate::proofs::NothingElseKept::nothing_else_is_kept))]
pub fn nothing_else_is_kept()
    ensures same { NothingElseIsKept }
    ensures documents { DocumentsGoWithTheirJobs }
{}

/// Law: the events that are taken are those within these limits, moments end with 2099, and names are
/// these, in the order of their bytes.
#[tactic(auto, using(crate::proofs::LimitsTold::events_lie_within, crate::proofs::LimitsTold::moments_end, crate::proofs::LimitsTold::names_are_these, crate::proofs::LimitsTold::names_go_by_their_bytes))]
pub fn limits_are_these()
    ensures events { EventsLieWithin }
    ensures moments { MomentsEnd }
    ensures names { NamesAreThese }
    ensures order { NamesGoByTheirBytes }
{}
