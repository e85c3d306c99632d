//! `Request`: an IPP request that passed its checks, with the row of its account, which every
//! operation reads first.

ghost use Rattle.std.proofs.Props.{props};
ghost use Rattle.std.specs.Prelude.{◌≡◌};
ghost use Rattle.account_asks.specs.Asks.{IsAsk, plain_ask};
ghost use Rattle.account_machine.specs.Requests.{asked_at};
ghost use Rattle.account_replies.specs.Limits.{IsPlace};
ghost use Rattle.account_replies.specs.Places.{plain_place};
ghost use Rattle.store_events.specs.ProofAsks.{AreValues-prop};
ghost use Rattle.rows_tables.specs.Accounts.{IsAccount};

use account_machine::{Account, Ask, Moment, Name, Place, asked_at};

/// An IPP request to an account that is open.
#[derive(Drop)]
pub(crate) struct Request<'a> {
    pub account: Name,
    pub row: Account,
    pub now: Moment,
    pub ask: Ask<'a>,
    ghost row_in_range: { IsAccount row },
    ghost ask_in_range: { IsAsk (plain_ask ask) } by { Prim.hlevel (props, AreValues-prop) },
}

impl<'a> Request<'a> {
    /// Where and when the request is answered, for the attributes that tell addresses and times.
    pub(crate) fn place(&self) -> Place<'a>
        ensures place { let it = self.entry.now in
            plain_place result ≡ asked_at it.row.opened it.account it.now (plain_ask it.ask) }
        ensures limits { IsPlace (plain_place result) }
    {
        asked_at(self.row.opened, self.account, self.now, &self.ask)
    }
}
