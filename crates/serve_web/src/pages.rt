//! The HTTP service of pages: answers each request of a browser.
ghost use Rattle.std.specs.Prelude.{◌≡◌, false, OnErr, OnOk};
ghost use Rattle.http_server.specs.Response.{IsBlank};
ghost use Rattle.serve_peers.specs.Journals.{moment_of, needs_password_of, shares_of};
ghost use Rattle.serve_peers.specs.Requests.{has_long_body};
ghost use Rattle.serve_web.specs.Answers.{ActsOn, Answers, AnswersAsked, AnswersPages, Applies, Prints, PrintsFile, Shows, ShowsRoom, rooms_of};
ghost use Rattle.serve_web.specs.Questions.{question_of};
ghost use Rattle.serve_web.specs.Responses.{IsRefusal};
ghost use Rattle.serve_web.specs.ProofPages.{pages_continue};

use crate::answer::{put_sheet, refuse, shared, show, tell};
use crate::asked::{Asked, asked_by};
use crate::fields::put_page_fields;
use crate::host::is_answered;
use crate::message::{act_message, file_message, lacks_password};
use crate::outcome::page_act;
use crate::questions::{kind_of, question_of};
use crate::refusal::status_of;
use account_rules::Name;
use bytes::Bytes;
use client_owner::JobAct;
use http::Request;
use http_server::{Response, Service};
use page_pages::{Act, PAGE_SCRIPT, Refusal, STYLE_SHEET};
use serve_peers::{Entry, RoomService, Served, has_long_body};
use sqlite::Alter;
use std::alloc::AllocError;

/// The service of pages, which borrows what is served for a turn.
#[derive(Drop)]
pub struct Pages<'a, S: Alter> {
    pub(crate) served: &'a mut Served<S>,
}

impl<S: Alter> Service for Pages<'_, S> {
    ghost answers = { AnswersPages S.Store };

    fn call(
        &mut self,
        request: &Request<Bytes>,
        response: &mut Response,
    ) -> Result<(), AllocError> {
        answer(&mut *self.served, request, response)
    }
}

impl<S: Alter> RoomService for Pages<'_, S> {
    type Kept = S;

    ghost rooms = { rooms_of };

    fn is_shared(&self) -> bool {
        self.served.is_shared()
    }

    ghost continues = { pages_continue _ };
}

/// Answers a request of a browser. While requests share a commit it is refused, to be asked again,
/// and so is one of a Host that is not answered.
fn answer<S: Alter>(
    served: &mut Served<S>,
    request: &Request<Bytes>,
    response: &mut Response,
) -> Result<(), AllocError>
    requires { IsBlank response.old }
    ensures ok { OnOk result (Answers S.Store served.old request.now response.new served.new) }
    ensures err { OnErr result (served.new ≡ served.old) }
{
    if served.is_shared() {
        return refuse(response, Refusal::Busy, has_long_body(request));
    }
    if !is_answered(served.hosts(), request) {
        return refuse_and_log(served, Refusal::Misdirected, request, response);
    }
    match asked_by(request) {
        Ok(asked) => answer_asked(served, &asked, request, response),
        Err(refusal) => refuse_and_log(served, refusal, request, response),
    }
}

/// Refuses a request, which changes nothing, and has the log tell it.
fn refuse_and_log<S: Alter>(
    served: &mut Served<S>,
    refusal: Refusal,
    request: &Request<Bytes>,
    response: &mut Response,
) -> Result<(), AllocError>
    requires { IsBlank response.old }
    ensures ok { OnOk result
        (IsRefusal refusal (has_long_body request.now) response.new) }
    ensures same { served.new ≡ served.old }
{
    served.log_status(status_of(refusal).as_u16(), request.uri().path().as_bytes());
    refuse(response, refusal, has_long_body(request))
}

/// Answers what a request asks for.
fn answer_asked<S: Alter>(
    served: &mut Served<S>,
    asked: &Asked,
    request: &Request<Bytes>,
    response: &mut Response,
) -> Result<(), AllocError>
    requires blank { IsBlank response.old }
    requires alone { shares_of served.old ≡ false }
    ensures ok { OnOk result
        (AnswersAsked S.Store asked.now served.old request.now response.new served.new) }
    ensures err { OnErr result (served.new ≡ served.old) }
{
    let closes = has_long_body(request);
    match asked {
        Asked::Style => put_sheet(response, "text/css; charset=utf-8", STYLE_SHEET, closes),
        Asked::Script => put_sheet(
            response,
            "text/javascript; charset=utf-8",
            PAGE_SCRIPT,
            closes,
        ),
        Asked::Act { account, act, job } => {
            act_on(served, *account, *act, *job, closes, response)
        }
        Asked::Print {
            account,
            copies,
            pages,
        } => print(served, *account, *copies, *pages, request, response),
        Asked::Room { front, behind } => show_room(served, *front, *behind, closes, response),
        Asked::Owner { .. } => {
            show_page(served, asked, closes, response);
            Ok(())
        }
        Asked::Statement { .. } => {
            show_page(served, asked, closes, response);
            Ok(())
        }
    }
}

/// Answers with the print room's page, of the overview that was gathered last, and has a newer one
/// gathered where that is due.
fn show_room<S: Alter>(
    served: &mut Served<S>,
    front: Option<Name>,
    behind: Option<Name>,
    closes: bool,
    response: &mut Response,
) -> Result<(), AllocError>
    requires { IsBlank response.old }
    ensures ok { OnOk result
        (ShowsRoom S.Store front behind closes served.old response.new served.new) }
    ensures err { OnErr result (served.new ≡ served.old) }
{
    let mut text = Vec::new(*response.headers.allocator());
    served.put_overview_page(&mut text, front, behind)?;
    put_page_fields(response, closes)?;
    response.body.push(shared(text)?)?;
    served.ask_overview();
    Ok(())
}

/// Answers with a page of an account.
fn show_page<S: Alter>(served: &mut Served<S>, asked: &Asked, closes: bool, response: &mut Response)
    requires blank { IsBlank response.old }
    requires alone { shares_of served.old ≡ false }
    ensures { Shows S.Store
        (question_of (needs_password_of served.old) (moment_of served.old) asked.now) closes
        served.old response.new served.new }
{
    let question = question_of(served.needs_password(), served.moment(), asked);
    let kind = kind_of(&question);
    let told = served.answer_question(question);
    show(response, kind, told, closes);
}

/// Does an act on a job, as one IPP message.
fn act_on<S: Alter>(
    served: &mut Served<S>,
    account: Name,
    act: JobAct,
    job: u32,
    closes: bool,
    response: &mut Response,
) -> Result<(), AllocError>
    requires blank { IsBlank response.old }
    requires alone { shares_of served.old ≡ false }
    ensures ok { OnOk result
        (ActsOn S.Store account act job closes served.old response.new served.new) }
    ensures err { OnErr result (served.new ≡ served.old) }
{
    let message = act_message(*response.headers.allocator(), account, act, job)?;
    apply(
        served,
        account,
        page_act(act),
        job,
        message,
        closes,
        response,
    )?;
    Ok(())
}

/// Prints the file of a request, unless it lacks the password that it needs.
fn print<S: Alter>(
    served: &mut Served<S>,
    account: Name,
    copies: u32,
    pages: Option<u32>,
    request: &Request<Bytes>,
    response: &mut Response,
) -> Result<(), AllocError>
    requires blank { IsBlank response.old }
    requires alone { shares_of served.old ≡ false }
    ensures ok { OnOk result
        (Prints S.Store account copies pages served.old request.now response.new served.new) }
    ensures err { OnErr result (served.new ≡ served.old) }
{
    let alloc = *response.headers.allocator();
    if lacks_password(alloc, served.needs_password(), request)? {
        return refuse_and_log(served, Refusal::NoPassword, request, response);
    }
    print_file(served, account, copies, pages, request, response)
}

/// Prints the file of a request, as one IPP message, if the disk has space for it.
fn print_file<S: Alter>(
    served: &mut Served<S>,
    account: Name,
    copies: u32,
    pages: Option<u32>,
    request: &Request<Bytes>,
    response: &mut Response,
) -> Result<(), AllocError>
    requires blank { IsBlank response.old }
    requires alone { shares_of served.old ≡ false }
    ensures ok { OnOk result
        (PrintsFile S.Store account copies pages served.old request.now response.new served.new) }
    ensures err { OnErr result (served.new ≡ served.old) }
{
    let alloc = *response.headers.allocator();
    let message = file_message(alloc, account, request, copies, pages)?;
    if served.takes() < message.len() {
        refuse_and_log(served, Refusal::NoSpace, request, response)?;
        return Ok(());
    }
    let closes = has_long_body(request);
    apply(served, account, Act::Print, 0, message, closes, response)?;
    Ok(())
}

/// Applies a message once, and answers with what came of it.
fn apply<S: Alter>(
    served: &mut Served<S>,
    account: Name,
    act: Act,
    job: u32,
    message: Vec<u8>,
    closes: bool,
    response: &mut Response,
) -> Result<(), AllocError>
    requires blank { IsBlank response.old }
    ensures ok { OnOk result
        (Applies S.Store account act job message.items closes served.old response.new served.new) }
    ensures err { OnErr result (served.new ≡ served.old) }
{
    let entry = Entry::Message {
        moment: served.moment(),
        account,
        body: shared(message)?,
    };
    let told = served.apply(entry)?;
    tell(response, account, act, job, told, closes);
    Ok(())
}
