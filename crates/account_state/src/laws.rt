//! A law on the order in which completed jobs are listed: a function without a body, whose contract
//! is a fact about the definitions in `specs`. Nobody calls it at run time; docs/PROMISES.md lists
//! it.

ghost use Rattle.account_state.specs.QueueLaws.{CompletedIsTheQueue};

/// Law: the queue of the completed jobs has the jobs that have ended, the latest first, and where
/// two ended at the same moment the one with the higher number first. No other list is so.
#[tactic(auto, using(crate::proofs::CompletedQueues::completed_is_the_queue))]
pub fn completed_is_the_queue()
    ensures { CompletedIsTheQueue }
{}
