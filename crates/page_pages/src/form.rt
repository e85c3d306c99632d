//! The form to print a file, on the owner's page.

ghost use Rattle.std.specs.Prelude.{◌≡◌, ◌++◌, OnOk};
ghost use Rattle.page_pages.specs.Forms.{duty_mark, form_checks, form_choices, form_counts, form_end, form_file, form_password, form_start, password_help, print_form};
ghost use Rattle.page_markup.specs.Parts.{html};

use crate::markup::KINDS_OF_FILE;
use crate::texts::{
    CANCEL_CHOSEN, CANCELS_MANY, CHOOSE, CHOOSE_ALL, CHOSEN, COPIES, DONE_OF_MANY, FILE, FILE_HELP,
    HAND_IN, PAGES_HELP, PAGES_OF_COPY, PAGES_RANGE, PASSWORD, PASSWORD_DUTY, PASSWORD_HELP, PRINT,
    RELEASE_CHOSEN, SCRIPT_NEEDED, SENT_BROKEN, SENT_EMPTY, SENT_LARGE, SENT_REFUSED, SENT_SENDING,
    WHY_DOCUMENT_FORMAT, WHY_JOB_NAME_TOO_LONG, WHY_PASSWORD_TOO_LONG, WHY_TEMPLATE,
};
use page_markup::{Piece, put_all};
use std::alloc::AllocError;

/// Appends the form to print a file in the account. `needs_password`: no file is taken without a
/// password.
#[tactic(auto, using(std::proofs::Common::append_assoc), unfolding(crate::specs::Forms::print_form))]
pub(crate) fn put_print_form(
    out: &mut Vec<u8>,
    account: &[u8],
    needs_password: bool,
) -> Result<(), AllocError>
    ensures { OnOk result
        (out.new.items ≡ out.old.items ++ print_form account.now needs_password) }
{
    put_form_start(out, account)?;
    put_form_checks(out)?;
    put_form_choices(out)?;
    put_form_file(out)?;
    put_form_counts(out)?;
    put_form_password(
        out,
        duty_mark(needs_password),
        password_help(needs_password),
    )?;
    put_form_end(out)
}

/// Appends the start of the form, with the texts for what comes of sending it.
fn put_form_start(out: &mut Vec<u8>, account: &[u8]) -> Result<(), AllocError>
    ensures { OnOk result (out.new.items ≡ out.old.items ++ html (form_start account.now)) }
{
    put_all(
        out,
        &[
            Piece::Mark(
                "<section class=\"card screen\" aria-labelledby=\"hand-in\">\n<header><h2 ",
            ),
            Piece::Mark("id=\"hand-in\">"),
            Piece::Mark(PRINT),
            Piece::Mark("</h2></header>\n<form class=\"fields\" id=\"print\" method=\"post\" "),
            Piece::Mark("action=\"/"),
            Piece::Text(account),
            Piece::Mark("/print"),
            Piece::Mark("\"\ndata-sending=\""),
            Piece::Mark(SENT_SENDING),
            Piece::Mark("\"\ndata-refused=\""),
            Piece::Mark(SENT_REFUSED),
            Piece::Mark("\"\ndata-broken=\""),
            Piece::Mark(SENT_BROKEN),
        ],
    )
}

/// Appends the texts for fields that are wrong.
fn put_form_checks(out: &mut Vec<u8>) -> Result<(), AllocError>
    ensures { OnOk result (out.new.items ≡ out.old.items ++ html form_checks) }
{
    put_all(
        out,
        &[
            Piece::Mark("\"\ndata-empty=\""),
            Piece::Mark(SENT_EMPTY),
            Piece::Mark("\"\ndata-large=\""),
            Piece::Mark(SENT_LARGE),
            Piece::Mark("\"\ndata-name=\""),
            Piece::Mark(WHY_JOB_NAME_TOO_LONG),
            Piece::Mark("\"\ndata-kind=\""),
            Piece::Mark(WHY_DOCUMENT_FORMAT),
            Piece::Mark("\"\ndata-copies=\""),
            Piece::Mark(WHY_TEMPLATE),
            Piece::Mark("\"\ndata-pages=\""),
            Piece::Mark(PAGES_RANGE),
            Piece::Mark("\"\ndata-password=\""),
            Piece::Mark(WHY_PASSWORD_TOO_LONG),
            Piece::Mark("\"\ndata-duty=\""),
            Piece::Mark(PASSWORD_DUTY),
        ],
    )
}

/// Appends the texts for several jobs at once.
fn put_form_choices(out: &mut Vec<u8>) -> Result<(), AllocError>
    ensures { OnOk result (out.new.items ≡ out.old.items ++ html form_choices) }
{
    put_all(
        out,
        &[
            Piece::Mark("\"\ndata-choose=\""),
            Piece::Mark(CHOOSE),
            Piece::Mark("\"\ndata-all=\""),
            Piece::Mark(CHOOSE_ALL),
            Piece::Mark("\"\ndata-chosen=\""),
            Piece::Mark(CHOSEN),
            Piece::Mark("\"\ndata-release=\""),
            Piece::Mark(RELEASE_CHOSEN),
            Piece::Mark("\"\ndata-cancel=\""),
            Piece::Mark(CANCEL_CHOSEN),
            Piece::Mark("\"\ndata-sure=\""),
            Piece::Mark(CANCELS_MANY),
            Piece::Mark("\"\ndata-done=\""),
            Piece::Mark(DONE_OF_MANY),
            Piece::Mark("\">\n"),
        ],
    )
}

/// Appends the field of the file.
fn put_form_file(out: &mut Vec<u8>) -> Result<(), AllocError>
    ensures { OnOk result (out.new.items ≡ out.old.items ++ html form_file) }
{
    put_all(
        out,
        &[
            Piece::Mark("<div class=\"wide\"><label for=\"file\">"),
            Piece::Mark(FILE),
            Piece::Mark("</label><input id=\"file\" name=\"file\" type=\"file\" required"),
            Piece::Mark(" accept=\""),
            Piece::Mark(KINDS_OF_FILE),
            Piece::Mark("\" aria-describedby=\"file-help\"><small id=\"file-help\">"),
            Piece::Mark(FILE_HELP),
            Piece::Mark("</small></div>\n"),
        ],
    )
}

/// Appends the fields of the copies and the pages.
fn put_form_counts(out: &mut Vec<u8>) -> Result<(), AllocError>
    ensures { OnOk result (out.new.items ≡ out.old.items ++ html form_counts) }
{
    put_all(
        out,
        &[
            Piece::Mark("<div><label for=\"copies\">"),
            Piece::Mark(COPIES),
            Piece::Mark("</label><input id=\"copies\" name=\"copies\""),
            Piece::Mark(
                " type=\"text\" inputmode=\"numeric\" maxlength=\"3\" value=\"1\" required></div>\n",
            ),
            Piece::Mark("<div><label for=\"pages\">"),
            Piece::Mark(PAGES_OF_COPY),
            Piece::Mark("</label><input id=\"pages\" name=\"pages\""),
            Piece::Mark(" type=\"text\" inputmode=\"numeric\" maxlength=\"8\" "),
            Piece::Mark("aria-describedby=\"pages-help\"><small id=\"pages-help\">"),
            Piece::Mark(PAGES_HELP),
            Piece::Mark("</small></div>\n"),
        ],
    )
}

/// Appends the field of the password. `duty` is its attribute `required` or nothing, `help` the
/// text below it.
fn put_form_password<'a>(out: &mut Vec<u8>, duty: &'a str, help: &'a str) -> Result<(), AllocError>
    ensures { OnOk result
        (out.new.items ≡ out.old.items ++ html (form_password duty.now help.now)) }
{
    put_all(
        out,
        &[
            Piece::Mark("<div><label for=\"password\">"),
            Piece::Mark(PASSWORD),
            Piece::Mark("</label><input id=\"password\" name=\"password\""),
            Piece::Mark(" type=\"password\" maxlength=\"32\" autocomplete=\"new-password\""),
            Piece::Mark(duty),
            Piece::Mark(" aria-describedby=\"password-help\"><small id=\"password-help\">"),
            Piece::Mark(help),
            Piece::Mark("</small></div>\n"),
        ],
    )
}

/// Gives the attribute of the password's field that has the browser insist on one, if it is to.
fn duty_mark(needs_password: bool) -> &'static str
    ensures { result.now ≡ duty_mark needs_password }
{
    if needs_password { " required" } else { "" }
}

/// Gives the text below the password's field: that one is needed, or that it may be empty.
fn password_help(needs_password: bool) -> &'static str
    ensures { result.now ≡ password_help needs_password }
{
    if needs_password {
        PASSWORD_DUTY
    } else {
        PASSWORD_HELP
    }
}

/// Appends the button, and the end of the form.
fn put_form_end(out: &mut Vec<u8>) -> Result<(), AllocError>
    ensures { OnOk result (out.new.items ≡ out.old.items ++ html form_end) }
{
    put_all(
        out,
        &[
            Piece::Mark("<div class=\"wide\"><button class=\"first\" disabled>"),
            Piece::Mark(HAND_IN),
            Piece::Mark("</button> <span id=\"sent\" role=\"status\"></span></div>\n</form>\n"),
            Piece::Mark("<noscript><p class=\"quiet\">"),
            Piece::Mark(SCRIPT_NEEDED),
            Piece::Mark("</p></noscript>\n</section>\n"),
        ],
    )
}
