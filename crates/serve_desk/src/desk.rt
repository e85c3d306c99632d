//! The HTTP service of the desk: answers each request of an operator's browser.
ghost use Rattle.std.specs.Prelude.{◌≡◌, false, OnErr, OnOk};
ghost use Rattle.http_server.specs.Response.{IsBlank};
ghost use Rattle.input_lines.specs.Saying.{IsLineOf};
ghost use Rattle.input_lines.specs.declared.lines.Grammar.TheVariants.{Operator};
ghost use Rattle.serve_peers.specs.Journals.{moment_of, shares_of};
ghost use Rattle.serve_peers.specs.Requests.{has_long_body};
ghost use Rattle.serve_web.specs.Answers.{Shows};
ghost use Rattle.serve_web.specs.Responses.{IsRefusal};
ghost use Rattle.serve_desk.specs.Answers.{Answers, AnswersAsked, AnswersDesk, Applies, AsksLine, AsksNothing, AsksText, Gives, ShowsRoom, rooms_of};
ghost use Rattle.serve_desk.specs.Questions.{question_of};
ghost use Rattle.serve_desk.specs.Requests.{asked};
ghost use Rattle.serve_desk.specs.ProofDesk.{desk_continues};

use crate::act::{came_told, deed_of, onward_of};
use crate::answer::tell;
use crate::asked::{Asked, asked_by};
use crate::line::{line_of, read_line};
use crate::operator::operator_of;
use crate::place::Listed;
use account_questions::{About, Question};
use account_rules::Name;
use bytes::Bytes;
use http::Request;
use http_server::{Response, Service};
use input_lines::Line;
use page_pages::{Came, DESK_SCRIPT, Deed, LineTold, Onward, PAGE_SCRIPT, Refusal, STYLE_SHEET};
use serve_log::{Door, LineRefusal};
use serve_peers::{Entry, RoomService, Served, has_long_body};
use serve_web::{
    is_answered, kind_of, month_then, put_page_fields, put_sheet, question_of as page_question,
    refuse, shared, show, status_of,
};
use sqlite::Alter;
use std::alloc::AllocError;

/// The Content-Type of scripts.
const SCRIPT_KIND: &str = "text/javascript; charset=utf-8";

/// The service of the desk, which borrows what is served for a turn.
#[derive(Drop)]
pub struct Desk<'a, S: Alter> {
    pub(crate) served: &'a mut Served<S>,
}

impl<S: Alter> Service for Desk<'_, S> {
    ghost answers = { AnswersDesk S.Store };

    fn call(
        &mut self,
        request: &Request<Bytes>,
        response: &mut Response,
    ) -> Result<(), AllocError> {
        answer(&mut *self.served, request, response)
    }
}

impl<S: Alter> RoomService for Desk<'_, S> {
    type Kept = S;

    ghost rooms = { rooms_of };

    fn is_shared(&self) -> bool {
        self.served.is_shared()
    }

    ghost continues = { desk_continues _ };
}

/// Answers a request at the desk. While requests share a commit it is refused, to be asked again; and
/// so is one of a Host that is not answered, or that names no operator.
fn answer<S: Alter>(
    served: &mut Served<S>,
    request: &Request<Bytes>,
    response: &mut Response,
) -> Result<(), AllocError>
    requires { IsBlank response.old }
    ensures ok { OnOk result (Answers S.Store served.old request.now response.new served.new) }
    ensures err { OnErr result (served.new ≡ served.old) }
{
    if served.is_shared() {
        return refuse(response, Refusal::Busy, has_long_body(request));
    }
    if !is_answered(served.hosts(), request) {
        return refuse_and_log(served, Refusal::Misdirected, request, response);
    }
    match operator_of(request) {
        Some(operator) => answer_operator(served, operator, request, response),
        None => refuse_and_log(served, Refusal::NoOperator, request, response),
    }
}

/// Answers a request of an operator.
fn answer_operator<S: Alter>(
    served: &mut Served<S>,
    operator: Name,
    request: &Request<Bytes>,
    response: &mut Response,
) -> Result<(), AllocError>
    requires blank { IsBlank response.old }
    requires alone { shares_of served.old ≡ false }
    ensures ok { OnOk result
        (Gives S.Store (asked request.now) operator served.old request.now response.new served.new) }
    ensures err { OnErr result (served.new ≡ served.old) }
{
    match asked_by(request) {
        Ok(asked) => answer_asked(served, &asked, operator, request, response),
        Err(refusal) => refuse_and_log(served, refusal, request, response),
    }
}

/// Refuses a request, which changes nothing, and has the log tell it.
fn refuse_and_log<S: Alter>(
    served: &mut Served<S>,
    refusal: Refusal,
    request: &Request<Bytes>,
    response: &mut Response,
) -> Result<(), AllocError>
    requires { IsBlank response.old }
    ensures ok { OnOk result
        (IsRefusal refusal (has_long_body request.now) response.new) }
    ensures same { served.new ≡ served.old }
{
    served.log_status(status_of(refusal).as_u16(), request.uri().path().as_bytes());
    refuse(response, refusal, has_long_body(request))
}

/// Answers what a request asks for.
fn answer_asked<S: Alter>(
    served: &mut Served<S>,
    asked: &Asked,
    operator: Name,
    request: &Request<Bytes>,
    response: &mut Response,
) -> Result<(), AllocError>
    requires blank { IsBlank response.old }
    requires alone { shares_of served.old ≡ false }
    ensures ok { OnOk result
        (AnswersAsked S.Store asked.now operator served.old request.now response.new served.new) }
    ensures err { OnErr result (served.new ≡ served.old) }
{
    let closes = has_long_body(request);
    match asked {
        Asked::Style => put_sheet(response, "text/css; charset=utf-8", STYLE_SHEET, closes),
        Asked::Script => put_sheet(response, SCRIPT_KIND, PAGE_SCRIPT, closes),
        Asked::DeskScript => put_sheet(response, SCRIPT_KIND, DESK_SCRIPT, closes),
        Asked::Room(listed) => show_room(served, listed, closes, response),
        Asked::Line => ask_line(served, operator, request, response),
        Asked::Devices => {
            show_page(served, asked, closes, response);
            Ok(())
        }
        Asked::Account(_) => {
            show_page(served, asked, closes, response);
            Ok(())
        }
        Asked::Statement(_) => {
            show_page(served, asked, closes, response);
            Ok(())
        }
    }
}

/// Answers with the first page, of the overview that was gathered last, and has a newer one gathered
/// where that is due.
fn show_room<S: Alter>(
    served: &mut Served<S>,
    listed: &Listed,
    closes: bool,
    response: &mut Response,
) -> Result<(), AllocError>
    requires { IsBlank response.old }
    ensures ok { OnOk result
        (ShowsRoom S.Store listed.now closes served.old response.new served.new) }
    ensures err { OnErr result (served.new ≡ served.old) }
{
    let mut text = Vec::new(*response.headers.allocator());
    served.put_overview_desk(&mut text, listed.front, listed.behind)?;
    put_page_fields(response, closes)?;
    response.body.push(shared(text)?)?;
    served.ask_overview();
    Ok(())
}

/// Answers with what a question is answered.
fn show_page<S: Alter>(served: &mut Served<S>, asked: &Asked, closes: bool, response: &mut Response)
    requires blank { IsBlank response.old }
    requires alone { shares_of served.old ≡ false }
    ensures { Shows S.Store (question_of (moment_of served.old) asked.now) closes
        served.old response.new served.new }
{
    let question = question_of(served.moment(), asked);
    let kind = kind_of(&question);
    let told = served.answer_question(question);
    show(response, kind, told, closes);
}

/// Makes the question that is answered with the page. What is no such page asks nothing (`Ping`).
fn question_of(moment: u64, asked: &Asked) -> Question
    ensures { result ≡ question_of moment asked.now }
{
    match asked {
        Asked::Devices => Question::DevicesPage,
        Asked::Account(account) => Question::Account {
            account: *account,
            about: About::DeskPage {
                month: month_then(moment),
            },
        },
        Asked::Statement(asked) => page_question(false, moment, asked),
        _ => Question::Ping,
    }
}

/// Asks the line that the form of a request spells, and answers what it came to.
fn ask_line<S: Alter>(
    served: &mut Served<S>,
    operator: Name,
    request: &Request<Bytes>,
    response: &mut Response,
) -> Result<(), AllocError>
    requires { IsBlank response.old }
    ensures ok { OnOk result
        (AsksLine S.Store operator served.old request.now response.new served.new) }
    ensures err { OnErr result (served.new ≡ served.old) }
{
    let alloc = *response.headers.allocator();
    let closes = has_long_body(request);
    let text = line_of(alloc, request.body().as_slice())?;
    ask_text(served, operator, text.as_slice(), closes, response)
}

/// Asks this line, and answers what it came to.
fn ask_text<S: Alter>(
    served: &mut Served<S>,
    operator: Name,
    text: &[u8],
    closes: bool,
    response: &mut Response,
) -> Result<(), AllocError>
    requires { IsBlank response.old }
    ensures ok { OnOk result
        (AsksText S.Store operator text.now closes served.old response.new served.new) }
    ensures err { OnErr result (served.new ≡ served.old) }
{
    let alloc = *response.headers.allocator();
    match read_line(alloc, served.moment(), text)? {
        Some(line) => ask_read(served, operator, text, line, closes, response),
        None => {
            tell_no_line(served, operator, text, closes, response);
            Ok(())
        }
    }
}

/// Asks the line that was read, if it asks for an event, and answers what it came to.
fn ask_read<S: Alter>(
    served: &mut Served<S>,
    operator: Name,
    text: &[u8],
    line: Line,
    closes: bool,
    response: &mut Response,
) -> Result<(), AllocError>
    requires blank { IsBlank response.old }
    requires read { IsLineOf (Operator (moment_of served.old)) text.now line }
    ensures ok { OnOk result
        (AsksText S.Store operator text.now closes served.old response.new served.new) }
    ensures err { OnErr result (served.new ≡ served.old) }
{
    match deed_of(&line.action) {
        Some(deed) => apply(served, operator, text, line, deed, closes, response),
        None => {
            tell_no_line(served, operator, text, closes, response);
            Ok(())
        }
    }
}

/// Answers that the line asks for no event of an operator, which the log tells too.
fn tell_no_line<S: Alter>(
    served: &mut Served<S>,
    operator: Name,
    text: &[u8],
    closes: bool,
    response: &mut Response,
)
    requires { IsBlank response.old }
    ensures { AsksNothing S.Store operator text.now closes served.old response.new served.new }
{
    served.log_refused_line(Door::Desk(operator), LineRefusal::BadLine);
    let told = LineTold {
        line: text,
        operator,
        came: Came::NoLine,
        onward: Onward::Accounts,
    };
    tell(response, &told, closes);
}

/// Applies a line once, for the operator, and answers what it came to.
fn apply<S: Alter>(
    served: &mut Served<S>,
    operator: Name,
    text: &[u8],
    line: Line,
    deed: Deed,
    closes: bool,
    response: &mut Response,
) -> Result<(), AllocError>
    requires { IsBlank response.old }
    ensures ok { OnOk result
        (Applies S.Store operator text.now line deed closes served.old response.new served.new) }
    ensures err { OnErr result (served.new ≡ served.old) }
{
    let onward = onward_of(&line.action);
    let told = served.apply(Entry::Desk { operator, line })?;
    let told = LineTold {
        line: text,
        operator,
        came: came_told(deed, &told),
        onward,
    };
    tell(response, &told, closes);
    Ok(())
}
