//! Laws of this crate: facts about its definitions that the check proves. Nothing calls them.

ghost use Rattle.rows_statements.specs.NamesStay.{NamesStay};
ghost use Rattle.rows_statements.specs.SoundRows.{SoundRowsAreRead};

/// Every read finds sound rows readable: it never tells `Damaged` of them.
pub fn sound_rows_are_read()
    ensures { SoundRowsAreRead }
{}

/// Every change keeps this: the account of each row of `account` has a valid name. `next_accounts`
/// needs it. It is no part of sound rows, since those are said of one account whose name is given.
pub fn names_stay()
    ensures { NamesStay }
{}
