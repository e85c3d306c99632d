//! Parsing lines that ask questions, of an operator or of a station.
ghost use Rattle.std.specs.Prelude.{◌≡◌, ◌∷◌, false, true, IfOk};
ghost use Rattle.input_lines.specs.Asking.{IsQuestionOf, SaysQuestion, is_of_station};
ghost use Rattle.input_lines.specs.ProofTaking.{TakesSome, left};

use crate::fields::Fields;
use account_machine::LAST_JOB;
use account_questions::{About, Question};
use input_fields::FieldFault;

/// How many ended jobs an `ended` question may ask for, at most.
const MOST_ENDED: u32 = 100;

/// Parses an operator's question, without its line feed. `Malformed` where it is none.
pub fn read_question(line: &[u8]) -> Result<Question, FieldFault>
    ensures said { IfOk result (IsQuestionOf line.now) }
    ensures operators { IfOk result (λ question. is_of_station question ≡ false) }
{
    let mut fields = Fields { rest: Some(line) };
    let kind = fields.take()?;
    let question = operator_question(kind, &mut fields)?;
    fields.end()?;
    Ok(question)
}

/// Parses a station's question, without its line feed. `Malformed` where it is none.
pub fn read_station_question(line: &[u8]) -> Result<Question, FieldFault>
    ensures said { IfOk result (IsQuestionOf line.now) }
    ensures stations { IfOk result (λ question. is_of_station question ≡ true) }
{
    let mut fields = Fields { rest: Some(line) };
    let kind = fields.take()?;
    let question = station_question(kind, &mut fields)?;
    fields.end()?;
    Ok(question)
}

/// Parses an operator's question behind its first word, which is `kind`.
fn operator_question(kind: &[u8], fields: &mut Fields<'_>) -> Result<Question, FieldFault>
    ensures said { IfOk result (λ question. TakesSome (left fields.old) (left fields.new)
        (λ taken. SaysQuestion (kind.now ∷ taken) question)) }
    ensures operators { IfOk result (λ question. is_of_station question ≡ false) }
{
    match kind {
        b"ping" => Ok(Question::Ping),
        b"end" => Ok(Question::End),
        b"devices" => Ok(Question::Devices),
        b"accounts" => Ok(Question::Accounts {
            behind: fields.name_if_any()?,
        }),
        kind => account_question(kind, fields),
    }
}

/// Parses an operator's question about one account, behind its first word, which is `kind`.
fn account_question(kind: &[u8], fields: &mut Fields<'_>) -> Result<Question, FieldFault>
    ensures said { IfOk result (λ question. TakesSome (left fields.old) (left fields.new)
        (λ taken. SaysQuestion (kind.now ∷ taken) question)) }
    ensures operators { IfOk result (λ question. is_of_station question ≡ false) }
{
    match kind {
        b"check" => Ok(Question::Check {
            account: fields.name()?,
        }),
        b"left" => Ok(Question::Account {
            account: fields.name()?,
            about: About::Left {
                month: fields.month()?,
            },
        }),
        b"statement" => Ok(Question::Account {
            account: fields.name()?,
            about: About::Statement {
                month: fields.month()?,
            },
        }),
        b"jobs" => Ok(Question::Account {
            account: fields.name()?,
            about: About::Jobs,
        }),
        b"ended" => Ok(Question::Account {
            account: fields.name()?,
            about: About::Ended {
                most: fields.number(1, MOST_ENDED)?,
            },
        }),
        b"grants" => Ok(Question::Account {
            account: fields.name()?,
            about: About::Grants,
        }),
        _ => Err(FieldFault::Malformed),
    }
}

/// Parses a station's question, `list` or `again`, behind its first word, which is `kind`.
fn station_question(kind: &[u8], fields: &mut Fields<'_>) -> Result<Question, FieldFault>
    ensures said { IfOk result (λ question. TakesSome (left fields.old) (left fields.new)
        (λ taken. SaysQuestion (kind.now ∷ taken) question)) }
    ensures stations { IfOk result (λ question. is_of_station question ≡ true) }
{
    match kind {
        b"list" => {
            let device = fields.name()?;
            Ok(Question::Account {
                account: fields.name()?,
                about: About::Waiting { device },
            })
        }
        b"again" => {
            let device = fields.name()?;
            Ok(Question::Account {
                account: fields.name()?,
                about: About::Again {
                    device,
                    job: fields.number(1, LAST_JOB)?,
                },
            })
        }
        _ => Err(FieldFault::Malformed),
    }
}
