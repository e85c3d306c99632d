//! Laws on questions: what they are answered follows from what was told before. Nobody calls them
//! at run time; docs/PROMISES.md lists them.

ghost use Rattle.account_laws.specs.AgainTold.{AgainIsTold};
ghost use Rattle.account_laws.specs.EachQuestion.{EachQuestionIsTold};
ghost use Rattle.account_laws.specs.JobLinesTold.{EndedAreTold, JobsAreTold, WaitingIsTold};
ghost use Rattle.account_laws.specs.LinesTold.{AccountsAreListed, DevicesAreTold, GrantsAreTold, LeftIsTold, OthersAreTold};
ghost use Rattle.account_laws.specs.OfferedReleases.{ReleasesAreOffered};
ghost use Rattle.account_laws.specs.PagesTold.{DeskPagesAreTold, DevicesPagesAreTold, OwnerPagesAreTold, StatementPagesAreTold};
ghost use Rattle.account_laws.specs.QuestionsTold.{QuestionsTellTheLife};
ghost use Rattle.account_laws.specs.StatementsTold.{StatementsAreTold};

/// Law: what a question is answered follows from what was told before. After two lives that tell the
/// same every question is answered the same, in lines and on pages. Each line is the text that what
/// was told spells, byte for byte: what is left of your quota, the statement of a month, your jobs
/// that go on, those that ended last, those that a station may have, documents once more, your
/// grants, the devices. There is no other question.
pub fn questions_tell_the_life()
    ensures life { QuestionsTellTheLife }
    ensures left { LeftIsTold }
    ensures statement { StatementsAreTold }
    ensures jobs { JobsAreTold }
    ensures ended { EndedAreTold }
    ensures grants { GrantsAreTold }
    ensures devices { DevicesAreTold }
    ensures waiting { WaitingIsTold }
    ensures again { AgainIsTold }
    ensures others { OthersAreTold }
    ensures accounts { AccountsAreListed }
    ensures each { EachQuestionIsTold }
{}

/// Law: your page, the statement of a month for paper, and the pages of the desk show your quota, your
/// jobs and the devices as you were told of them.
#[tactic(auto, using(crate::proofs::PagesTold::desk_pages_are_told, crate::proofs::PagesTold::owner_pages_are_told, crate::proofs::PagesTold::statement_pages_are_told))]
pub fn pages_tell_the_life()
    ensures owner { OwnerPagesAreTold }
    ensures statement { StatementPagesAreTold }
    ensures desk { DeskPagesAreTold }
    ensures devices { DevicesPagesAreTold }
{}

/// Law: your page offers the release of a job exactly where that would be done at the same moment,
/// for the units that the job then reserves.
pub fn releases_are_offered()
    ensures { ReleasesAreOffered }
{}
