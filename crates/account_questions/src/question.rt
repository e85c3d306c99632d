//! `Question`: all that may be asked and changes nothing, of the server or about one account.

ghost use Rattle.std.specs.Prelude.{◌≡◌};
ghost use Rattle.account_questions.specs.Questions.{asks_end};

use account_rules::Name;
use page_pages::{Form, Outcome};

/// What is asked in one line, or for one page.
#[derive(Clone, Copy)]
pub enum Question {
    /// Whether anybody answers.
    Ping,
    /// Whether anybody answers, who then ends. Who serves sees to the end.
    End,
    /// The devices, by name.
    Devices,
    /// The desk's page of devices.
    DevicesPage,
    /// The names of accounts that come next behind a name, or first, at most 100.
    Accounts { behind: Option<Name> },
    /// Whether the rows of an account are sound. All of them are read.
    Check { account: Name },
    /// Something about one account.
    Account { account: Name, about: About },
}

impl Question {
    /// Whether the server is asked to end.
    pub fn asks_end(&self) -> bool
        ensures { result ≡ asks_end self.now }
    {
        matches!(self, Question::End)
    }
}

/// What is asked about an account. A month is the year times 12, and 0 for January to 11 for
/// December: 23640 (1970-01) to 25199 (2099-12).
#[derive(Clone, Copy)]
pub enum About {
    /// The quota up to a month.
    Left {
        month: u32,
    },
    /// The statement of a month.
    Statement {
        month: u32,
    },
    /// The jobs that have not ended, by number.
    Jobs,
    /// The jobs that have ended, the last first, and of them so many.
    Ended {
        most: u32,
    },
    /// The grants, by month.
    Grants,
    /// The jobs that a station may release, start or settle for the owner.
    Waiting {
        device: Name,
    },
    /// The documents of a job that the device started and has not settled, and nobody canceled.
    Again {
        device: Name,
        job: u32,
    },
    /// The owner's page, with the quota up to a month and what came of the last act. It stays as it
    /// is, or loads itself anew while jobs wait, and its form needs a password, or takes none too.
    OwnerPage {
        month: u32,
        outcome: Option<Outcome>,
        stays: bool,
        needs_password: bool,
    },
    /// The statement of a month, or of the twelve of a year, as a page or as a table, and the moment
    /// that it is drawn up at, in seconds since 1970-01-01T00:00:00Z.
    StatementPage {
        first: u32,
        last: u32,
        form: Form,
        drawn_up: u64,
    },
    /// The desk's page of an account, with the quota up to a month.
    DeskPage {
        month: u32,
    },
}
