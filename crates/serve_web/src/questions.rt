//! Makes the question that the store answers with an owner's page or a statement.
ghost use Rattle.std.specs.Prelude.{◌≡◌, IsTrue};
ghost use Rattle.http_header.specs.FieldValue.{is_visible_text};
ghost use Rattle.serve_web.specs.Questions.{about_kind, form_kind, kind_of, month_then, months_then, question_of};

use crate::asked::{Asked, Months};
use account_questions::{About, Question};
use account_rules::{LAST_MONTH, Moment, month_of};
use page_pages::Form;

/// The Content-Type of a page.
const PAGE_KIND: &str = "text/html; charset=utf-8";

/// Makes the question whose answer is the page, at a moment (seconds since 1970-01-01T00:00:00Z).
/// What is no page of an account asks nothing (`Ping`).
pub fn question_of(needs_password: bool, moment: u64, asked: &Asked) -> Question
    ensures { result ≡ question_of needs_password moment asked.now }
{
    match asked {
        Asked::Owner {
            account,
            came,
            stays,
        } => Question::Account {
            account: *account,
            about: About::OwnerPage {
                month: month_then(moment),
                outcome: *came,
                stays: *stays,
                needs_password,
            },
        },
        Asked::Statement {
            account,
            form,
            months,
        } => {
            let months = months_then(moment, *months);
            Question::Account {
                account: *account,
                about: About::StatementPage {
                    first: months.first,
                    last: months.last,
                    form: *form,
                    drawn_up: moment,
                },
            }
        }
        _ => Question::Ping,
    }
}

/// Gives the month of the moment, or the last that there is where it lies past that.
pub fn month_then(moment: u64) -> u32
    ensures { result ≡ month_then moment }
{
    match Moment::new(moment) {
        Some(moment) => month_of(moment),
        None => LAST_MONTH,
    }
}

/// Gives these months, or with `None` that of the moment.
fn months_then(moment: u64, months: Option<Months>) -> Months
    ensures { result ≡ months_then moment months }
{
    match months {
        Some(months) => months,
        None => {
            let month = month_then(moment);
            Months {
                first: month,
                last: month,
            }
        }
    }
}

/// Gives the Content-Type of what a question is answered with: a page, or a table (RFC 4180).
pub fn kind_of(question: &Question) -> &'static str
    ensures kind { result.now ≡ kind_of question.now }
    ensures text { IsTrue (is_visible_text result.now) }
{
    match question {
        Question::Account { about, .. } => about_kind(about),
        _ => PAGE_KIND,
    }
}

/// Gives the Content-Type of what a question about an account is answered with.
fn about_kind(about: &About) -> &'static str
    ensures kind { result.now ≡ about_kind about.now }
    ensures text { IsTrue (is_visible_text result.now) }
{
    match about {
        About::StatementPage { form, .. } => form_kind(*form),
        _ => PAGE_KIND,
    }
}

/// Gives the Content-Type of a statement.
fn form_kind(form: Form) -> &'static str
    ensures kind { result.now ≡ form_kind form }
    ensures text { IsTrue (is_visible_text result.now) }
{
    match form {
        Form::Paper => PAGE_KIND,
        Form::Csv => "text/csv; charset=utf-8",
    }
}
