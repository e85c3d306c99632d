//! Laws on your requests: what they ask, what they are answered, and the jobs that they make.
//! Nobody calls them at run time; docs/PROMISES.md lists them.

ghost use Rattle.account_laws.specs.LastingJobs.{JobsStay};
ghost use Rattle.account_laws.specs.NewNumbers.{JobsAreCounted, NumbersAreKept, NumbersDiffer};
ghost use Rattle.account_laws.specs.RequestAnswers.{RequestsAreAnswered};
ghost use Rattle.account_laws.specs.SpelledAsks.{AsksAreSpelled, SpelledAsksAreTaken};
ghost use Rattle.account_laws.specs.SpelledBytes.{MessagesAreInBytes, TextsAreInBytes};

/// Law: your request is done exactly where nothing stands against it, and else is refused for the
/// first thing that does, in the order of the checks, by what you were told before. What is done is
/// told by that too: a job with its number, name, state, documents, impressions, copies and
/// moments, all your jobs in their order, and what your printer is doing.
#[tactic(auto, using(crate::proofs::RequestsAnswered::requests_are_answered))]
pub fn requests_are_answered()
    ensures { RequestsAreAnswered }
{}

/// Law: your jobs are numbered from 1 on, one after the other, as the answers to the requests that
/// made them tell. No number is told of two of them.
#[tactic(auto, using(crate::proofs::NewNumbers::jobs_are_counted, crate::proofs::NewNumbers::numbers_are_kept, crate::proofs::NewNumbers::numbers_differ))]
pub fn jobs_are_counted()
    ensures counted { JobsAreCounted }
    ensures kept { NumbersAreKept }
    ensures differ { NumbersDiffer }
{}

/// Law: a job is there for good, with the name, the password and the copies of the request that made
/// it.
#[tactic(auto, using(crate::proofs::LastingJobs::jobs_stay))]
pub fn jobs_stay()
    ensures { JobsStay }
{}

/// Law: what you ask is what your request's bytes spell. Its one message has the operation, the
/// target, the fields that the operation reads, each within its limits, and behind its end the data,
/// whole. And a request whose bytes spell such a message passes its checks, and asks just that.
pub fn asks_are_spelled()
    ensures spelled { AsksAreSpelled }
    ensures taken { SpelledAsksAreTaken }
{}

/// Law: which bytes spell a message, tag by tag and length by length, and which a text with its
/// language. All laws that speak of messages take it from here.
pub fn messages_are_in_bytes()
    ensures messages { MessagesAreInBytes }
    ensures texts { TextsAreInBytes }
{}
