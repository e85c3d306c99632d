//! Decides whether a grant is new, from what the month was granted already.

ghost use Rattle.std.specs.Prelude.{◌≡◌};
ghost use Rattle.account_replies.specs.Grants.{grant_refusal};

use account_rules::Word;

/// Refuses a grant of these pages for a month that has one: as `Same` where it has the same pages,
/// else as `Conflict` with those that it has.
pub fn check_grant(held: Option<u32>, pages: u32) -> Result<(), Word>
    ensures { result ≡ grant_refusal held pages }
{
    match held {
        None => Ok(()),
        Some(held) if held == pages => Err(Word::Same),
        Some(held) => Err(Word::Conflict { held }),
    }
}
