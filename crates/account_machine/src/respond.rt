//! What the answers to several operations share: the place of a response, the attributes that it
//! shows, the refusal of a job that is not there.

ghost use Rattle.std.specs.Prelude.{◌≡◌, ◌≤◌, ◌∷◌, [], Some, codes, map};
ghost use Rattle.account_asks.specs.Asks.{IsAsk, plain_ask};
ghost use Rattle.account_rules.specs.Limits.{last_moment};
ghost use Rattle.std.specs.Borrow.{Bor};
ghost use Rattle.std.specs.Prelude.{ℕ, List};
ghost use Rattle.account_machine.specs.NewJobs.{made_names};
ghost use Rattle.account_machine.specs.Requests.{asked_at};
ghost use Rattle.account_rules.specs.declared.refusal.Word.TheVariants.{NoJob};
ghost use Rattle.account_replies.specs.Limits.{IsPlace};
ghost use Rattle.account_replies.specs.Places.{plain_place};
ghost use Rattle.account_replies.specs.Tables.{asked_names};

use account_asks::Ask;
use account_replies::Place;
use account_rules::{Moment, Name, Refusal, Word};

/// The place and the moment that the response tells, for an account that was opened at `opened`.
pub fn asked_at<'a>(opened: u64, account: Name, now: Moment, ask: &Ask<'a>) -> Place<'a>
    requires ask { IsAsk (plain_ask ask.now) }
    requires opened { opened ≤ last_moment }
    ensures place { plain_place result ≡ asked_at opened account now (plain_ask ask.entry.now) }
    ensures limits { IsPlace (plain_place result) }
{
    Place {
        base: ask.base,
        name: account,
        opened,
        now: now.seconds(),
    }
}

/// The names of the attributes that the request wants. None where it does not say.
pub fn wanted_names<'m, 'a>(ask: &'m Ask<'a>) -> Option<&'m [&'a [u8]]>
    ensures { asked_names result ≡ (plain_ask ask.entry.now).wanted }
{
    match &ask.wanted {
        None => None,
        Some(names) => Some(names.as_slice()),
    }
}

/// The attributes that are told of a job that a request made, or gave a document.
pub fn made_names() -> [&'static [u8]; 4]
    ensures { Some (map (λ (name : Bor (List ℕ)). name.now) result) ≡ made_names }
{
    [b"job-uri", b"job-id", b"job-state", b"job-state-reasons"]
}

/// Refuses as client-error-not-found: the account has no such job.
pub fn no_job() -> Refusal
    ensures { result ≡ record { status = 0x0406; word = NoJob } }
{
    Refusal {
        status: 0x0406,
        word: Word::NoJob,
    }
}
