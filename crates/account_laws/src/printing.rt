//! Laws on what is printed, and for whom, by what was asked and answered. Nobody calls them at run
//! time; docs/PROMISES.md lists them.

ghost use Rattle.account_laws.specs.HandedAgain.{HandedAgain, HandsAgain};
ghost use Rattle.account_laws.specs.HandedByLeave.{HandedByLeave};
ghost use Rattle.account_laws.specs.HandedOnce.{HandedOnce, SettledOnceAtMost};
ghost use Rattle.account_laws.specs.HandedAsSent.{HandedAsSent, HandedAtStarts};
ghost use Rattle.account_laws.specs.ItsOwnJob.{ItsOwnJobOnly, ReadsAndRefusalsDoNothing};
ghost use Rattle.account_laws.specs.OtherPasswords.{AlikeButForPassword};
ghost use Rattle.account_laws.specs.PasswordsInQuestions.{PasswordsStaySecretInQuestions};
ghost use Rattle.account_laws.specs.PasswordsStaySecret.{PasswordsStaySecret, WrongPasswordsOpenNothing};
ghost use Rattle.account_laws.specs.DoneStays.{CanceledIsNotHandedOut, ClosedTakesNoMore, EndedStays, HeldWaitsForRelease};

/// Law: your job is handed out to a device once at most in all the life of your account, and it is
/// settled once at most.
pub fn handed_once()
    ensures out { HandedOnce }
    ensures settled { SettledOnceAtMost }
{}

/// Law: your documents go to a device only by your leave. While your job waited, it was released
/// for that device with the password that you gave it, or where you gave none over IPP for any
/// device. That release was not taken back since, and the device is on.
pub fn handed_by_leave()
    ensures { HandedByLeave }
{}

/// Law: what a device is handed is what you sent for your job, each document, whole, in the order
/// in which you sent them, byte for byte, and with the copies that you asked for when you made the
/// job. No other event is answered with documents.
pub fn handed_as_sent()
    ensures all { HandedAsSent }
    ensures alone { HandedAtStarts }
{}

/// Law: only the device that started your job, has not settled it and asks again is handed your
/// documents again, and they are those that it was handed at the start; you did not cancel the job
/// since. It is handed them whenever it asks, until it settles the job or you cancel it.
pub fn handed_again()
    ensures alone { HandedAgain }
    ensures always { HandsAgain }
{}

/// Law: what you are told as done is done. A job that you canceled is handed out no more (nor
/// again, as `handed_again` says); one that you held waits for another release; one that is closed
/// takes no document more; and of one that has ended nothing changes.
pub fn done_stays()
    ensures canceled { CanceledIsNotHandedOut }
    ensures held { HeldWaitsForRelease }
    ensures closed { ClosedTakesNoMore }
    ensures ended { EndedStays }
{}

/// Law: what is asked changes the one job that it is about, and no other; the next number is one
/// more where a job is made. What only asks what there is, and what is refused, does nothing:
/// without it all else would have been answered the same.
pub fn its_own_job_only()
    ensures own { ItsOwnJobOnly }
    ensures none { ReadsAndRefusalsDoNothing }
{}

/// Law: the password of your job shows in no answer, to an event or to a question, in lines or on
/// pages. Had you given another one, all would have been told the same, if at stations the right one
/// is given wherever it was, and a wrong one wherever a wrong one was. Two bodies that spell one
/// message but for the password are such requests. And a wrong password releases nothing.
pub fn passwords_stay_secret()
    ensures secret { PasswordsStaySecret }
    ensures questions { PasswordsStaySecretInQuestions }
    ensures bodies { AlikeButForPassword }
    ensures wrong { WrongPasswordsOpenNothing }
{}
