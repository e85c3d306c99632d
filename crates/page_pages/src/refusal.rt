//! The page that tells a browser why what it asked was refused.

ghost use Rattle.std.specs.Prelude.{◌≡◌, ◌++◌, OnOk};
ghost use Rattle.page_pages.specs.Frames.{document, top};
ghost use Rattle.page_markup.specs.Parts.{html};
ghost use Rattle.page_pages.specs.Refusals.{heading, refusal_card, refusal_page, sentence};

use crate::frame::{put_document, put_top};
use crate::texts::{
    ASK_AGAIN, BAD_REQUEST, BY_OTHER_NAME, CANNOT_DO, FAILED_HERE, FROM_ELSEWHERE, HAS_FAILED,
    HAS_NO_PASSWORD, IS_BAD_REQUEST, IS_FULL, IS_NO_OPERATOR, IS_ONLY_DONE, IS_ONLY_READ,
    IS_TOO_LARGE, IS_WRONG_TYPE, NO_PAGE, NO_SUCH_PAGE, NOT_KNOWN_HERE, NOT_NOW, OTHER_NAME,
    PASSWORD_MISSING, PRINT_ROOM, START_PAGE, TOO_LARGE, WAS_NOT_DONE,
};
use page_markup::{Piece, put_all};
use std::alloc::AllocError;

/// Why a request of a browser is refused.
#[derive(Clone, Copy, PartialEq, Eq)]
pub enum Refusal {
    /// A query or a form that is none of its path.
    BadRequest,
    /// A Host that is not answered.
    Misdirected,
    /// A form that another site may have sent.
    Forbidden,
    /// A request at the desk that names no operator.
    NoOperator,
    /// A path of nothing, or of an account that is not open.
    NotFound,
    /// Another method than GET and HEAD, where something is to be read.
    OnlyRead,
    /// Another method than POST, where something is to be done.
    OnlyPost,
    /// A file that is longer than a document may be.
    TooLarge,
    /// Another type of body than its path takes.
    WrongType,
    /// A file without a password, where it is taken with one alone.
    NoPassword,
    /// The disk has no space for the file.
    NoSpace,
    /// What others ask at this moment shares a commit, and a page is to be asked alone.
    Busy,
    /// The store failed.
    Failed,
}

/// Appends the page of a refusal.
#[tactic(auto, using(std::proofs::Common::append_assoc), unfolding(crate::specs::Refusals::refusal_page))]
pub fn put_refusal_page(out: &mut Vec<u8>, refusal: Refusal) -> Result<(), AllocError>
    ensures { OnOk result (out.new.items ≡ out.old.items ++ refusal_page refusal) }
{
    put_document(out, heading(refusal).as_bytes())?;
    put_top(out, PRINT_ROOM)?;
    put_refusal_card(out, heading(refusal), sentence(refusal))
}

/// Gives the heading of the page: what kind of refusal it is.
fn heading(refusal: Refusal) -> &'static str
    ensures { result.now ≡ heading refusal }
{
    match refusal {
        Refusal::BadRequest => BAD_REQUEST,
        Refusal::Misdirected => OTHER_NAME,
        Refusal::Forbidden => WAS_NOT_DONE,
        Refusal::NoOperator => NOT_KNOWN_HERE,
        Refusal::NotFound => NO_PAGE,
        Refusal::OnlyRead | Refusal::OnlyPost | Refusal::WrongType => CANNOT_DO,
        Refusal::TooLarge => TOO_LARGE,
        Refusal::NoPassword => PASSWORD_MISSING,
        Refusal::NoSpace | Refusal::Busy => NOT_NOW,
        Refusal::Failed => HAS_FAILED,
    }
}

/// Gives the sentence that tells why, and what to do.
fn sentence(refusal: Refusal) -> &'static str
    ensures { result.now ≡ sentence refusal }
{
    match refusal {
        Refusal::BadRequest => IS_BAD_REQUEST,
        Refusal::Misdirected => BY_OTHER_NAME,
        Refusal::Forbidden => FROM_ELSEWHERE,
        Refusal::NoOperator => IS_NO_OPERATOR,
        Refusal::NotFound => NO_SUCH_PAGE,
        Refusal::OnlyRead => IS_ONLY_READ,
        Refusal::OnlyPost => IS_ONLY_DONE,
        Refusal::TooLarge => IS_TOO_LARGE,
        Refusal::WrongType => IS_WRONG_TYPE,
        Refusal::NoPassword => HAS_NO_PASSWORD,
        Refusal::NoSpace => IS_FULL,
        Refusal::Busy => ASK_AGAIN,
        Refusal::Failed => FAILED_HERE,
    }
}

/// Appends the card with heading and sentence, the link to the first page, and the page's end.
fn put_refusal_card<'a>(
    out: &mut Vec<u8>,
    heading: &'a str,
    said: &'a str,
) -> Result<(), AllocError>
    ensures { OnOk result
        (out.new.items ≡ out.old.items ++ html (refusal_card heading.now said.now)) }
{
    put_all(
        out,
        &[
            Piece::Mark("<section class=\"card sheet\">\n<h1>"),
            Piece::Mark(heading),
            Piece::Mark("</h1>\n<p>"),
            Piece::Mark(said),
            Piece::Mark("</p>\n<p><a href=\"/\">"),
            Piece::Mark(START_PAGE),
            Piece::Mark("</a></p>\n</section>\n</main>\n</body>\n</html>\n"),
        ],
    )
}
