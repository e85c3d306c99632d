//! A law of this crate: a fact about its definitions that the check proves. Nothing calls it.

ghost use Rattle.rows_survey.specs.Reading.{SoundRowsAreSurveyed};

/// Every account whose rows are sound can be surveyed: `Damaged` is never told of it.
pub fn sound_rows_are_surveyed()
    ensures { SoundRowsAreSurveyed }
{}
