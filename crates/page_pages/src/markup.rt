//! The constant markup of the pages: what goes out as it is, with no text and no number in it. (The
//! pieces of a page are those of the crate page_markup.)

/// The start of each page, up to its title.
pub(crate) const DOCUMENT: &str = "<!DOCTYPE html>
<html lang=\"en\">
<head>
<meta charset=\"utf-8\">
<meta name=\"viewport\" content=\"width=device-width, initial-scale=1\">
<link rel=\"icon\" href=\"data:,\">
<link rel=\"stylesheet\" href=\"/style.css\">
";

/// Loads the script of the owner's and the print room's page.
pub(crate) const SCRIPT: &str = "<script src=\"/page.js\" defer></script>\n";

/// Begins the element that has a browser without scripts load a page anew.
pub(crate) const RELOAD: &str = "<noscript class=\"again\" data-stale=\"";

pub(crate) const BODY: &str = "</head>\n<body>\n";

/// The signs that a page draws (`sign` of a phase), each with its name.
pub(crate) const SIGNS: &str = "<svg class=\"unseen\" aria-hidden=\"true\">
<symbol id=\"sprig\" viewBox=\"0 0 24 24\"><path d=\"M12 22V8m0 5L7.5 8.500M12 13l4.500-4.500M12 18l-5.500-5.500M12 18l5.500-5.500\"/><circle cx=\"12\" cy=\"4.500\" r=\"2.500\"/></symbol>
<symbol id=\"held\" viewBox=\"0 0 16 16\"><path d=\"M5.500 3.500v9m5-9v9\"/></symbol>
<symbol id=\"lock\" viewBox=\"0 0 16 16\"><path d=\"M3.500 7.500h9v6h-9zm2 0V5.250a2.500 2.500 0 0 1 5 0V7.500\"/></symbol>
<symbol id=\"open\" viewBox=\"0 0 16 16\"><path d=\"M3.500 8h.01M8 8h.01m4.490 0h.01\"/></symbol>
<symbol id=\"released\" viewBox=\"0 0 16 16\"><path d=\"M2.500 8h10.500M9 4l4 4-4 4\"/></symbol>
<symbol id=\"printing\" viewBox=\"0 0 16 16\"><path d=\"M4.500 6V2.500h7V6m-7 5H2.500V6h11v5h-2m-7-1.500h7v4h-7z\"/></symbol>
<symbol id=\"stopping\" viewBox=\"0 0 16 16\"><path d=\"M4 4h8v8H4z\"/></symbol>
<symbol id=\"done\" viewBox=\"0 0 16 16\"><path d=\"m3 8.500 3.250 3.250L13 4.750\"/></symbol>
<symbol id=\"canceled\" viewBox=\"0 0 16 16\"><path d=\"m4 4 8 8m0-8-8 8\"/></symbol>
<symbol id=\"failed\" viewBox=\"0 0 16 16\"><path d=\"M8 2.500 1.750 13.500h12.500zM8 6.750v3m0 1.900v.01\"/></symbol>
<symbol id=\"on\" viewBox=\"0 0 16 16\"><path d=\"M8 2.250v5M4.900 4.400a5 5 0 1 0 6.200 0\"/></symbol>
<symbol id=\"off\" viewBox=\"0 0 16 16\"><circle cx=\"8\" cy=\"8\" r=\"5.500\"/><path d=\"m4.250 11.750 7.500-7.500\"/></symbol>
</svg>
";

/// The class of the button for the act that a job waits for.
pub(crate) const FIRST_ACT: &str = " class=\"first\"";

/// Ends the buttons of a job, and its row.
pub(crate) const END_OF_ACTS: &str = "</form></td></tr>\n";

/// Ends how a job stands.
pub(crate) const END_OF_STATE: &str = "</small></td>\n";

/// The kinds of files that the form to print takes, by the ends of their names and their types.
pub(crate) const KINDS_OF_FILE: &str = ".pdf,.ps,.jpg,.jpeg,.pwg,.urf,.txt,application/pdf,\
    application/postscript,image/jpeg,image/pwg-raster,image/urf,text/plain";

pub(crate) const END_OF_TABLE: &str = "</tbody>\n</table>\n";

pub(crate) const END_OF_CARD: &str = "</section>\n";

/// Ends what is told of the last act.
pub(crate) const END_OF_NOTE: &str = "</p></div>\n";

pub(crate) const LIST_OF_DEVICES: &str = "<ul class=\"devices\">\n";

pub(crate) const END_OF_LIST: &str = "</ul>\n";

/// Begins a box of two cards, which stand side by side where there is room.
pub(crate) const PAIR: &str = "<div class=\"pair\">\n";

/// Ends the box of two cards.
pub(crate) const END_OF_PAIR: &str = "</div>\n";

/// Ends the table of a chart's days, and the chart's card.
pub(crate) const END_OF_CHART: &str = "</tbody>\n</table></div>\n</details>\n</section>\n";

/// Ends the foot, and the page.
pub(crate) const END_OF_PAGE: &str = "</p></footer>\n</body>\n</html>\n";

/// Loads the script of all pages and that of the desk, on a page of the desk.
pub(crate) const DESK_SCRIPTS: &str =
    "<script src=\"/page.js\" defer></script>\n<script src=\"/desk.js\" defer></script>\n";

/// Begins a form of the desk, whose values are a line.
pub(crate) const LINE_FORM: &str = "<form data-line method=\"post\" action=\"/line.html\"";

/// Begins the cell with the form of a job, on a page of the desk.
pub(crate) const ACTS_OF_LINE: &str =
    "<td class=\"acts\"><form data-line method=\"post\" action=\"/line.html\">";

/// What a field of a name takes (`Name`).
pub(crate) const NAME_FIELD: &str = " required maxlength=\"32\" pattern=\"[a-z][a-z0-9\\-]*\" \
    autocapitalize=\"none\" autocomplete=\"off\" spellcheck=\"false\"";

/// What a field of a month takes, from January 2000 on.
pub(crate) const MONTH_FIELD: &str =
    " required maxlength=\"7\" pattern=\"20[0-9][0-9]-(0[1-9]|1[0-2])\" autocomplete=\"off\"";

/// What a field of units takes that are granted: 1 to 1000000000.
pub(crate) const UNITS_FIELD: &str = " required inputmode=\"numeric\" maxlength=\"10\" \
    pattern=\"[1-9][0-9]{0,8}|1000000000\" autocomplete=\"off\"";

/// What a field of a rate takes: 1 to 100.
pub(crate) const RATE_FIELD: &str = " required inputmode=\"numeric\" maxlength=\"3\" \
    pattern=\"[1-9][0-9]?|100\" autocomplete=\"off\"";
