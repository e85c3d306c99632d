//! A law of this crate: a fact about its definitions that the check proves. Nothing calls it.

ghost use Rattle.listen_http.specs.HttpLaws.{HasOneReading};

/// An input can be read in one way only: it is refused by the same refusal, or it is the same
/// account, body and bytes behind them. But 400 and 431 are both allowed where 16384 bytes end
/// inside a target that no head can have, or where more than 64 fields begin in them and the head
/// does not end.
pub fn one_reading()
    ensures { HasOneReading }
{}
