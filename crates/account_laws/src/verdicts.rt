//! A law on replies: their bytes tell what the event came to. Nobody calls it at run time;
//! docs/PROMISES.md lists it.

ghost use Rattle.account_laws.specs.VerdictsTold.{AccountsAreToldVerdicts, DevicesAreToldVerdicts, VerdictsNameJobs};

/// Law: what an event came to is what its reply tells, byte for byte. Where it was refused, the
/// response or the line is the one of that refusal. Where it was done, the response has the
/// verdict's status, or the line is that of a success. Documents are handed out only where it was
/// done. And the verdict of a request names its job.
#[tactic(auto, using(crate::proofs::VerdictsTold::accounts_are_told_verdicts, crate::proofs::VerdictsTold::devices_are_told_verdicts, crate::proofs::VerdictsTold::verdicts_name_jobs))]
pub fn replies_tell_verdicts()
    ensures accounts { AccountsAreToldVerdicts }
    ensures devices { DevicesAreToldVerdicts }
    ensures jobs { VerdictsNameJobs }
{}
