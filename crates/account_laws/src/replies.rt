//! Laws on the answers to your requests, byte by byte. Nobody calls them at run time;
//! docs/PROMISES.md lists them.

ghost use Rattle.account_laws.specs.ListedJobs.{JobsAreInOrder};
ghost use Rattle.account_laws.specs.SpelledAnswers.{AnswersAreSpelled, FailuresAreSpelled};
ghost use Rattle.account_laws.specs.ToldIntegers.{IntegersFit};

/// Law: the bytes that answer your request spell one message, by what you were told before. It has
/// the version nearest to that of your request, its request-id, and the code of a success, or that
/// of a refusal with its text. What you asked that is not supported goes back. What is done is told
/// by the attributes of your job, of your jobs in their order, or of your printer, those that you
/// asked for, each in its syntax with its value. Integers fit into 31 bits, as long as the events of
/// your life lie within their limits. A request that could not be applied is told so, with its
/// request-id.
pub fn answers_are_spelled()
    ensures spelled { AnswersAreSpelled }
    ensures order { JobsAreInOrder }
    ensures integers { IntegersFit }
    ensures failures { FailuresAreSpelled }
{}
