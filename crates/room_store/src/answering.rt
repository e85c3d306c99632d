//! `answer`: a question to a store whose events may be in rounds.

ghost use Rattle.room_store.specs.Questions.{AnswersQuestion};

use crate::questions::answer_question;
use account_machine::Reply;
use account_questions::Question;
use sqlite::Alter;
use std::alloc::Global;
use store_rounds::{Rounds, StoreFault};

/// Answers a question, as `Store::answer` does. `Storage` also where a round is under way, since
/// what it has changed may still be undone.
pub fn answer<S: Alter>(
    alloc: Global,
    connection: &mut Rounds<S>,
    asked: Question,
) -> Result<Reply, StoreFault>
    ensures { AnswersQuestion S.Store asked connection.old connection.new result }
{
    if connection.is_under_way() {
        return Err(StoreFault::Storage);
    }
    Ok(answer_question(alloc, connection, asked)?)
}
