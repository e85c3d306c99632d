//! `Outcome`: what became of one event of a list.

ghost use Rattle.std.specs.Prelude.{◌≡◌, option_copied};
ghost use Rattle.room_serve.specs.Outcomes.{outcome_of, reply_of};

use account_machine::Reply;
use store_rounds::StoreFault;

/// What became of one event of a list.
#[derive(Drop)]
pub enum Outcome {
    Answered(Reply),
    /// It could not be answered, and has changed nothing, as far as the connection is still open.
    Failed(StoreFault),
}

impl Outcome {
    /// The answer, unless the event failed.
    pub fn reply(&self) -> Option<&Reply>
        ensures { option_copied result ≡ reply_of self.now }
    {
        match self {
            Outcome::Answered(reply) => Some(reply),
            Outcome::Failed(_) => None,
        }
    }
}

impl From<Result<Reply, StoreFault>> for Outcome {
    ghost from_gives = { λ answer outcome. outcome ≡ outcome_of answer };

    fn from(answer: Result<Reply, StoreFault>) -> Outcome {
        match answer {
            Ok(reply) => Outcome::Answered(reply),
            Err(fault) => Outcome::Failed(fault),
        }
    }
}
