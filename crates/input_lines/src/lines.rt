//! Parsing lines that ask for events. Fields are parted by one space, and lines end in a line feed,
//! which the last may lack. Nothing is trimmed: a carriage return, a tab or a further space makes a
//! line malformed.
ghost use Rattle.std.specs.Prelude.{◌∷◌, All, IfOk, IsTrue};
ghost use Rattle.input_lines.specs.Actions.{is_in_range, is_of_operator, is_of_script, is_of_station};
ghost use Rattle.input_lines.specs.Lines.{IsAllowed};
ghost use Rattle.input_lines.specs.OwnerRequests.{act_word};
ghost use Rattle.input_lines.specs.Saying.{AreLinesOf, IsLineOf, Says};
ghost use Rattle.input_lines.specs.ProofTaking.{TakesSome, left};

use crate::action::Action;
use crate::fault::LineFault;
use crate::fields::Fields;
use crate::line::Line;
use crate::owner_request::{OwnerAct, OwnerRequest};
use account_machine::{LAST_JOB, MOST_IMPRESSIONS, MOST_PAGES, MOST_RATE};
use input_fields::FieldFault;
use std::alloc::Global;

/// Whose lines an input has, and so which lines it may have.
#[derive(Clone, Copy)]
pub enum Grammar {
    /// Every kind of line, each begun by its moment and a space.
    Script,
    /// `release`, `start` and `settle`, all at one moment.
    Station { moment: u64 },
    /// `open`, `device`, `rate`, `grant`, `cancel` and `hold`, all at one moment.
    Operator { moment: u64 },
}

impl Grammar {
    /// Parses all lines of an input, in order, or tells the number of the first that is malformed.
    /// An input of no bytes has no lines.
    pub fn read(self, alloc: Global, input: &[u8]) -> Result<Vec<Line>, LineFault>
        ensures allowed { IfOk result (λ lines. All (IsAllowed self) lines.items) }
        ensures said { IfOk result (λ lines. AreLinesOf self input.now lines.items) }
    {
        let mut lines = Vec::new(alloc);
        if input.is_empty() {
            return Ok(lines);
        }
        let text = input.strip_suffix(b"\n").unwrap_or(input);
        for (index, line) in text.split(|byte| *byte == b'\n').enumerate() {
            match self.read_line(alloc, line) {
                Ok(line) => lines.push(line).map_err(|_| LineFault::Memory)?,
                Err(FieldFault::Malformed) => return Err(LineFault::Line(index + 1)),
                Err(FieldFault::Memory) => return Err(LineFault::Memory),
            }
        }
        Ok(lines)
    }

    /// Parses one line, without its line feed. `Malformed` where the grammar has no such line.
    pub fn read_line(self, alloc: Global, line: &[u8]) -> Result<Line, FieldFault>
        ensures allowed { IfOk result (IsAllowed self) }
        ensures said { IfOk result (IsLineOf self line.now) }
    {
        let mut fields = Fields { rest: Some(line) };
        let line = match self {
            Grammar::Script => Line {
                moment: fields.moment()?,
                action: script_action(alloc, &mut fields)?,
            },
            Grammar::Station { moment } => {
                let kind = fields.take()?;
                let action = station_action(alloc, kind, &mut fields)?;
                Line { moment, action }
            }
            Grammar::Operator { moment } => {
                let kind = fields.take()?;
                let action = door_action(alloc, kind, &mut fields)?;
                Line { moment, action }
            }
        };
        fields.end()?;
        Ok(line)
    }
}

/// Parses a line of a script behind its moment: any line of a station, an operator's `open`,
/// `device`, `rate` or `grant`, or `ipp`.
fn script_action(alloc: Global, fields: &mut Fields<'_>) -> Result<Action, FieldFault>
    ensures range { IfOk result (λ action. IsTrue (is_in_range action)) }
    ensures scripts { IfOk result (λ action. IsTrue (is_of_script action)) }
    ensures said { IfOk result
        (λ action. TakesSome (left fields.old) (left fields.new) (λ taken. Says taken action)) }
{
    match fields.take()? {
        b"ipp" => Ok(Action::Ipp {
            account: fields.name()?,
            body: fields.bytes(alloc)?,
        }),
        kind @ (b"release" | b"start" | b"settle") => station_action(alloc, kind, fields),
        kind => operator_action(kind, fields),
    }
}

/// Parses a line that an operator sends to a running `serve`: one that a script may have too, or
/// `cancel` or `hold`, by which the operator acts for the account's owner.
fn door_action(alloc: Global, kind: &[u8], fields: &mut Fields<'_>) -> Result<Action, FieldFault>
    ensures range { IfOk result (λ action. IsTrue (is_in_range action)) }
    ensures kind { IfOk result (λ action. IsTrue (is_of_operator action)) }
    ensures said { IfOk result (λ action. TakesSome (left fields.old) (left fields.new)
        (λ taken. Says (kind.now ∷ taken) action)) }
{
    match kind {
        b"cancel" => owner_action(alloc, OwnerAct::Cancel, fields),
        b"hold" => owner_action(alloc, OwnerAct::Hold, fields),
        kind => operator_action(kind, fields),
    }
}

/// Parses `cancel` or `hold` behind that word: account and job.
fn owner_action(alloc: Global, act: OwnerAct, fields: &mut Fields<'_>) -> Result<Action, FieldFault>
    ensures range { IfOk result (λ action. IsTrue (is_in_range action)) }
    ensures kind { IfOk result (λ action. IsTrue (is_of_operator action)) }
    ensures said { IfOk result (λ action. TakesSome (left fields.old) (left fields.new)
        (λ taken. Says (act_word act ∷ taken) action)) }
{
    let account = fields.name()?;
    let job = fields.number(1, LAST_JOB)?;
    match OwnerRequest::new(alloc, act, account, job) {
        Ok(request) => Ok(Action::Owner(request)),
        Err(_) => Err(FieldFault::Memory),
    }
}

/// Parses `open`, `device`, `rate` or `grant`, behind that word, which is `kind`.
fn operator_action(kind: &[u8], fields: &mut Fields<'_>) -> Result<Action, FieldFault>
    ensures range { IfOk result (λ action. IsTrue (is_in_range action)) }
    ensures scripts { IfOk result (λ action. IsTrue (is_of_script action)) }
    ensures kind { IfOk result (λ action. IsTrue (is_of_operator action)) }
    ensures said { IfOk result (λ action. TakesSome (left fields.old) (left fields.new)
        (λ taken. Says (kind.now ∷ taken) action)) }
{
    match kind {
        b"open" => Ok(Action::Open {
            account: fields.name()?,
        }),
        b"device" => Ok(Action::Device {
            name: fields.name()?,
            on: fields.choice(b"on", b"off")?,
        }),
        b"rate" => Ok(Action::Rate {
            name: fields.name()?,
            units: fields.number(1, MOST_RATE)?,
        }),
        b"grant" => Ok(Action::Grant {
            account: fields.name()?,
            month: fields.month()?,
            pages: fields.number(0, MOST_PAGES)?,
        }),
        _ => Err(FieldFault::Malformed),
    }
}

/// Parses `release`, `start` or `settle`, behind that word, which is `kind`.
fn station_action(alloc: Global, kind: &[u8], fields: &mut Fields<'_>) -> Result<Action, FieldFault>
    ensures range { IfOk result (λ action. IsTrue (is_in_range action)) }
    ensures scripts { IfOk result (λ action. IsTrue (is_of_script action)) }
    ensures kind { IfOk result (λ action. IsTrue (is_of_station action)) }
    ensures said { IfOk result (λ action. TakesSome (left fields.old) (left fields.new)
        (λ taken. Says (kind.now ∷ taken) action)) }
{
    match kind {
        b"release" => Ok(Action::Release {
            device: fields.name()?,
            account: fields.name()?,
            job: fields.number(1, LAST_JOB)?,
            password: fields.password(alloc)?,
            impressions: fields.impressions()?,
        }),
        b"start" => Ok(Action::Start {
            device: fields.name()?,
            account: fields.name()?,
            job: fields.number(1, LAST_JOB)?,
        }),
        b"settle" => Ok(Action::Settle {
            device: fields.name()?,
            account: fields.name()?,
            job: fields.number(1, LAST_JOB)?,
            impressions: fields.number(0, MOST_IMPRESSIONS)?,
            failed: fields.choice(b"failed", b"done")?,
        }),
        _ => Err(FieldFault::Malformed),
    }
}
