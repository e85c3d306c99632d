//! IPP requests: reads the message, and hands it to the function for its operation.

ghost use Rattle.std.specs.Prelude.{◌≡◌, ◌≤◌, ◌<◌, length, Ok};
ghost use Rattle.store_events.specs.Answers.{short_answered};
ghost use Rattle.store_events.specs.Prelude.{DoesAnswer, DoesResponse, HasAccountRow, IfOurTables, IsAccount, StaysOpen, WasOpen, answered, plain_ask};
ghost use Rattle.ipp_coding.specs.Limits.{header_length};
ghost use Rattle.account_asks.specs.Asks.{ask_of};
ghost use Rattle.account_machine.specs.Events.{OfAccount, Ipp};
ghost use Rattle.account_machine.specs.Machine.{responded, responded_to};
ghost use Rattle.store_events.specs.Reading.{IsReadable, IsReadableFor, RequestIsReadable};

use crate::job_requests::{cancel, describe, hold, release};
use crate::lines::line_refused;
use crate::listing::list;
use crate::making::make;
use crate::printer::{show, validate};
use crate::request::Request;
use crate::responses::short_answered;
use crate::sending::send;
use account_machine::{
    Account, Answered, AskFault, Moment, Name, Operation, Reply, Verdict, Word, read_ask, refused,
};
use ipp_coding::{Header, read_header};
use rows_tables::TableFault;
use sqlite::Alter;
use std::alloc::Global;
use store_rounds::{Rounds, find_account};

/// Answers an IPP request; the account may not be open. Of a body of less than 8 bytes nothing is
/// looked up.
pub fn answer_request<S: Alter>(
    alloc: Global,
    connection: &mut Rounds<S>,
    account: Name,
    now: Moment,
    body: &[u8],
) -> Result<Answered, TableFault>
    ensures served { DoesAnswer S.Store connection.old connection.new account
        (IsReadable now (OfAccount account (Ipp body.now)))
        (λ room devices. answered room devices now (OfAccount account (Ipp body.now))) result }
    ensures short { length body.now < header_length → result ≡ Ok short_answered }
    ensures untouched { length body.now < header_length → connection.new ≡ connection.old }
    ensures asks { (length body.now < header_length → ⊥) →
        WasOpen S.Store connection.old connection.new result }
{
    let Some(header) = read_header(body) else {
        return Ok(short_answered());
    };
    let Some(row) = find_account(connection, account)? else {
        return Ok(Answered {
            reply: Reply::NoAccount,
            verdict: line_refused(Word::NoAccount),
        });
    };
    answer_body(alloc, connection, account, row, now, header, body)
}

/// Reads the request from its body, and answers it or refuses it. The account is open; `row` is its
/// own row.
fn answer_body<S: Alter>(
    alloc: Global,
    connection: &mut Rounds<S>,
    account: Name,
    row: Account,
    now: Moment,
    header: Header,
    body: &[u8],
) -> Result<Answered, TableFault>
    requires row { IsAccount row }
    requires length { header_length ≤ length body.now }
    ensures connection { StaysOpen S.Store connection.old connection.new result }
    ensures served { IfOurTables S.Store connection.old connection.new
        (HasAccountRow account row) →
        DoesResponse S.Store connection.old connection.new account
        (RequestIsReadable account now body.now)
        (λ room devices. responded_to room devices account now header
        (ask_of account body.now)) result }
{
    match read_ask(alloc, body, account) {
        Ok(ask) => {
            let request = Request {
                account,
                row,
                now,
                ask,
            };
            respond(alloc, connection, &request)
        }
        Err(
            AskFault::Refused {
                refusal,
                unsupported,
            },
        ) => {
            let text = refused(alloc, header, refusal, unsupported.as_slice())?;
            Ok(Answered {
                reply: Reply::Ipp(text),
                verdict: Verdict::Refused { refusal, job: None },
            })
        }
        Err(AskFault::Memory) => Err(TableFault::Memory),
    }
}

/// Answers a request that was read, by the function for its operation.
fn respond<S: Alter>(
    alloc: Global,
    connection: &mut Rounds<S>,
    request: &Request<'_>,
) -> Result<Answered, TableFault>
    ensures connection { StaysOpen S.Store connection.old connection.new result }
    ensures served { let it = request.entry.now in
        IfOurTables S.Store connection.old connection.new (HasAccountRow it.account it.row) →
        DoesResponse S.Store connection.old connection.new it.account
        (λ db. IsReadableFor it.account it.now (plain_ask it.ask) db it.ask.operation)
        (λ room devices. responded room devices it.account it.now (plain_ask it.ask)
        it.ask.operation) result }
{
    match request.ask.operation {
        Operation::PrintJob | Operation::CreateJob => make(alloc, connection, request),
        Operation::ValidateJob => validate(alloc, connection, request),
        Operation::SendDocument => send(alloc, connection, request),
        Operation::CancelJob => cancel(alloc, connection, request),
        Operation::GetJobAttributes => describe(alloc, connection, request),
        Operation::GetJobs => list(alloc, connection, request),
        Operation::GetPrinterAttributes => show(alloc, connection, request),
        Operation::HoldJob => hold(alloc, connection, request),
        Operation::ReleaseJob => release(alloc, connection, request),
    }
}
