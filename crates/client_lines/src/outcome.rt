//! How it went with all lines that were sent: how many were refused, and which answer was worst.
ghost use Rattle.std.specs.Prelude.{◌≡◌, ◌<◌, ◌≤◌};
ghost use Rattle.client_lines.specs.Outcomes.{is_refused, outcome_after, worst_after};

use crate::answer::Answer;

/// How it went with all that was sent.
#[derive(Clone, Copy, PartialEq, Eq)]
pub struct Outcome {
    /// How many lines or records there were.
    pub lines: usize,
    /// How many of them were answered otherwise than by `ok`, by a list or by documents.
    pub refused: usize,
    pub worst: Worst,
}

/// The worst of the answers.
#[derive(Clone, Copy, PartialEq, Eq)]
pub enum Worst {
    /// No event failed, and no line was bad.
    Fine,
    /// No event failed, and the line or record of this number, counted from 1, is the first that
    /// was answered as a bad line.
    BadLine(usize),
    /// An event failed.
    Failed,
}

impl Outcome {
    /// How it stands before anything is sent.
    pub(crate) const NOTHING_SENT: Outcome = Outcome {
        lines: 0,
        refused: 0,
        worst: Worst::Fine,
    };

    /// Counts the answer to the line of the number, from 1.
    pub(crate) fn after(self, number: usize, answer: Answer) -> Outcome
        requires { self.refused < number }
        ensures after { result ≡ outcome_after self number answer }
        ensures fewer { result.refused ≤ number }
    {
        let refused = if is_refused(answer) {
            self.refused + 1
        } else {
            self.refused
        };
        Outcome {
            lines: number,
            refused,
            worst: self.worst.after(number, answer),
        }
    }
}

impl Worst {
    /// Gives the worst of the answers once this one is counted too.
    fn after(self, number: usize, answer: Answer) -> Worst
        ensures { result ≡ worst_after self number answer }
    {
        match (self, answer) {
            (_, Answer::Failed) => Worst::Failed,
            (Worst::Fine, Answer::BadLine) => Worst::BadLine(number),
            _ => self,
        }
    }
}

/// Whether the answer tells that something was not done.
fn is_refused(answer: Answer) -> bool
    ensures { result ≡ is_refused answer }
{
    matches!(answer, Answer::Failed | Answer::BadLine | Answer::Refused)
}
