//! The forms of the desk. The values of each, in order and with a space between them, are the line
//! that it asks.

ghost use Rattle.std.specs.Prelude.{◌≡◌, ◌++◌, OnOk};
ghost use Rattle.page_pages.specs.DeskForms.{desk_links, device_form, file_form, give_back_form, grant_form, open_form};
ghost use Rattle.page_markup.specs.Parts.{html};

use crate::markup::{LINE_FORM, MONTH_FIELD, NAME_FIELD, UNITS_FIELD};
use crate::texts::{
    ACCOUNT, ADD_DEVICE, CAME, DEVICE, DEVICES, FILE, FILE_EMPTY, GIVE, GIVE_BACK, GIVE_BACK_HELP,
    GRANT, GRANT_LINE, GRANT_ROWS, GRANT_UNITS, GRANTS_OF_FILE, LINE_BROKEN, MONTH, MONTH_HELP,
    NAME_HELP, OPEN, OPEN_ACCOUNT, ROW, ROW_BAD, ROW_BROKEN, ROWS_DONE, ROWS_HELP, ROWS_SCRIPT,
    ROWS_SENT, TO_ACCOUNTS, TURN_ON, UNITS_GIVEN,
};
use page_markup::{Piece, put_all};
use std::alloc::AllocError;

/// Appends the card whose form opens an account.
pub(crate) fn put_open_form(out: &mut Vec<u8>) -> Result<(), AllocError>
    ensures { OnOk result (out.new.items ≡ out.old.items ++ html open_form) }
{
    put_all(
        out,
        &[
            Piece::Mark("<section class=\"card screen\" "),
            Piece::Mark("aria-labelledby=\"open-account\">\n<header><h2 id=\"open-account\">"),
            Piece::Mark(OPEN_ACCOUNT),
            Piece::Mark("</h2></header>\n"),
            Piece::Mark(LINE_FORM),
            Piece::Mark(" class=\"fields\">\n<input type=\"hidden\" name=\"act\" "),
            Piece::Mark("value=\"open\">\n<div><label for=\"opened\">"),
            Piece::Mark(ACCOUNT),
            Piece::Mark("</label><input id=\"opened\" name=\"account\""),
            Piece::Mark(NAME_FIELD),
            Piece::Mark(" aria-describedby=\"opened-help\"><small id=\"opened-help\">"),
            Piece::Mark(NAME_HELP),
            Piece::Mark("</small></div>\n<div class=\"wide\"><button class=\"first\">"),
            Piece::Mark(OPEN),
            Piece::Mark("</button></div>\n</form>\n</section>\n"),
        ],
    )
}

/// Appends the card whose form grants what a file says, by the script, with the texts for what each
/// record comes to.
pub(crate) fn put_file_form(out: &mut Vec<u8>) -> Result<(), AllocError>
    ensures { OnOk result (out.new.items ≡ out.old.items ++ html file_form) }
{
    put_all(
        out,
        &[
            Piece::Mark("<section class=\"card screen\" "),
            Piece::Mark("aria-labelledby=\"file-of-grants\">\n<header><h2 "),
            Piece::Mark("id=\"file-of-grants\">"),
            Piece::Mark(GRANTS_OF_FILE),
            Piece::Mark("</h2></header>\n"),
            Piece::Mark("<form class=\"fields\" id=\"file-form\" method=\"post\" "),
            Piece::Mark("action=\"/line.html\"\ndata-empty=\""),
            Piece::Mark(FILE_EMPTY),
            Piece::Mark("\"\ndata-bad=\""),
            Piece::Mark(ROW_BAD),
            Piece::Mark("\"\ndata-broken=\""),
            Piece::Mark(ROW_BROKEN),
            Piece::Mark("\"\ndata-row=\""),
            Piece::Mark(ROW),
            Piece::Mark("\"\ndata-line=\""),
            Piece::Mark(GRANT_LINE),
            Piece::Mark("\"\ndata-came=\""),
            Piece::Mark(CAME),
            Piece::Mark("\"\ndata-done=\""),
            Piece::Mark(ROWS_DONE),
            Piece::Mark("\"\ndata-sending=\""),
            Piece::Mark(ROWS_SENT),
            Piece::Mark("\">\n"),
            Piece::Mark("<div class=\"wide\"><label for=\"rows\">"),
            Piece::Mark(FILE),
            Piece::Mark("</label><input id=\"rows\" type=\"file\" required "),
            Piece::Mark("accept=\".csv,.txt,text/csv,text/plain\" "),
            Piece::Mark("aria-describedby=\"rows-help\"><small id=\"rows-help\">"),
            Piece::Mark(ROWS_HELP),
            Piece::Mark("</small></div>\n<div class=\"wide\"><button class=\"first\" disabled>"),
            Piece::Mark(GRANT_ROWS),
            Piece::Mark("</button> <span id=\"sent\" "),
            Piece::Mark("role=\"status\"></span></div>\n</form>\n<noscript><p class=\"quiet\">"),
            Piece::Mark(ROWS_SCRIPT),
            Piece::Mark("</p></noscript>\n</section>\n"),
        ],
    )
}

/// Appends the card whose form grants the account units, as it begins of the month that it is.
pub(crate) fn put_grant_form(
    out: &mut Vec<u8>,
    account: &[u8],
    month: u32,
) -> Result<(), AllocError>
    ensures { OnOk result (out.new.items ≡ out.old.items ++ html (grant_form account.now month)) }
{
    put_all(
        out,
        &[
            Piece::Mark("<section class=\"card screen\" aria-labelledby=\"grant\">\n<header><h2"),
            Piece::Mark(" id=\"grant\">"),
            Piece::Mark(GRANT_UNITS),
            Piece::Mark("</h2></header>\n"),
            Piece::Mark(LINE_FORM),
            Piece::Mark(" class=\"fields\">\n<input type=\"hidden\" name=\"act\" "),
            Piece::Mark("value=\"grant\"><input type=\"hidden\" name=\"account\" value=\""),
            Piece::Text(account),
            Piece::Mark("\">\n<div><label for=\"month\">"),
            Piece::Mark(MONTH),
            Piece::Mark("</label><input id=\"month\" name=\"month\""),
            Piece::Mark(MONTH_FIELD),
            Piece::Mark(" value=\""),
            Piece::MonthNumber(month),
            Piece::Mark("\" aria-describedby=\"month-help\"><small id=\"month-help\">"),
            Piece::Mark(MONTH_HELP),
            Piece::Mark("</small></div>\n<div><label for=\"granted\">"),
            Piece::Mark(UNITS_GIVEN),
            Piece::Mark("</label><input id=\"granted\" name=\"units\""),
            Piece::Mark(UNITS_FIELD),
            Piece::Mark("></div>\n<div class=\"wide\"><button class=\"first\">"),
            Piece::Mark(GRANT),
            Piece::Mark("</button></div>\n</form>\n</section>\n"),
        ],
    )
}

/// Appends the card whose form gives the account units back, by a grant for this month.
pub(crate) fn put_give_back_form(
    out: &mut Vec<u8>,
    account: &[u8],
    month: u32,
) -> Result<(), AllocError>
    ensures { OnOk result
        (out.new.items ≡ out.old.items ++ html (give_back_form account.now month)) }
{
    put_all(
        out,
        &[
            Piece::Mark("<section class=\"card screen\" "),
            Piece::Mark("aria-labelledby=\"give-back\">\n<header><h2 id=\"give-back\">"),
            Piece::Mark(GIVE_BACK),
            Piece::Mark("</h2></header>\n"),
            Piece::Mark(LINE_FORM),
            Piece::Mark(" class=\"fields\">\n<input type=\"hidden\" name=\"act\" "),
            Piece::Mark("value=\"grant\"><input type=\"hidden\" name=\"account\" value=\""),
            Piece::Text(account),
            Piece::Mark("\"><input type=\"hidden\" name=\"month\" value=\""),
            Piece::MonthNumber(month),
            Piece::Mark("\">\n<div><label for=\"given\">"),
            Piece::Mark(UNITS_GIVEN),
            Piece::Mark("</label><input id=\"given\" name=\"units\""),
            Piece::Mark(UNITS_FIELD),
            Piece::Mark(" aria-describedby=\"given-help\"><small id=\"given-help\">"),
            Piece::Mark(GIVE_BACK_HELP),
            Piece::Mark("</small></div>\n<div class=\"wide\"><button>"),
            Piece::Mark(GIVE),
            Piece::Mark("</button></div>\n</form>\n</section>\n"),
        ],
    )
}

/// Appends the card whose form makes a device known and turns it on.
pub(crate) fn put_device_form(out: &mut Vec<u8>) -> Result<(), AllocError>
    ensures { OnOk result (out.new.items ≡ out.old.items ++ html device_form) }
{
    put_all(
        out,
        &[
            Piece::Mark("<section class=\"card screen\" aria-labelledby=\"add\">\n<header><h2 "),
            Piece::Mark("id=\"add\">"),
            Piece::Mark(ADD_DEVICE),
            Piece::Mark("</h2></header>\n"),
            Piece::Mark(LINE_FORM),
            Piece::Mark(" class=\"fields\">\n<input type=\"hidden\" name=\"act\" "),
            Piece::Mark("value=\"device\">\n<div><label for=\"added\">"),
            Piece::Mark(DEVICE),
            Piece::Mark("</label><input id=\"added\" name=\"name\""),
            Piece::Mark(NAME_FIELD),
            Piece::Mark(" aria-describedby=\"added-help\"><small id=\"added-help\">"),
            Piece::Mark(NAME_HELP),
            Piece::Mark("</small></div>\n<input type=\"hidden\" name=\"state\" value=\"on\">\n<"),
            Piece::Mark("div class=\"wide\"><button class=\"first\">"),
            Piece::Mark(TURN_ON),
            Piece::Mark("</button></div>\n</form>\n</section>\n"),
        ],
    )
}

/// Appends the ways to the other pages of the desk.
pub(crate) fn put_desk_links(out: &mut Vec<u8>) -> Result<(), AllocError>
    ensures { OnOk result (out.new.items ≡ out.old.items ++ html desk_links) }
{
    put_all(
        out,
        &[
            Piece::Mark("<nav class=\"pager\" id=\"desk\" data-broken=\""),
            Piece::Mark(LINE_BROKEN),
            Piece::Mark("\"><a href=\"/\">"),
            Piece::Mark(TO_ACCOUNTS),
            Piece::Mark("</a><a href=\"/devices.html\">"),
            Piece::Mark(DEVICES),
            Piece::Mark("</a></nav>\n"),
        ],
    )
}
