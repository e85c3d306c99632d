//! The command `refund`: gives pages back to an account, by a grant of a month before 2000-01.
ghost use Rattle.std.specs.Prelude.{OnOk};
ghost use Rattle.client_operator.specs.Refunds.{Refunds};
ghost use Rattle.client_operator.specs.Talks.{at};

use crate::asked::account_line;
use crate::grant::unused_refund_month;
use crate::ping::tell;
use account_rules::Name;
use client_lines::{ClientFault, Peer, ask_list, grant_text};
use std::alloc::Global;
use std::io::{BufRead, Write};

/// Gives pages back to an account: asks for its grants, grants the pages for the latest month
/// before 2000-01 that has none, and prints the answer. `Refused` where each such month has a
/// grant, or the answer is not `ok`.
pub(crate) fn refund<R: BufRead, W: Write, O: Write>(
    alloc: Global,
    peer: &mut Peer<R, W>,
    account: &Name,
    pages: u32,
    output: &mut O,
) -> Result<(), ClientFault>
    ensures { OnOk result (Refunds account.now pages
        (at W.contents R.remaining O.contents peer.old output.old)
        (at W.contents R.remaining O.contents peer.new output.new)) }
{
    let asked = account_line(alloc, b"grants ", account)?;
    let grants = ask_list(alloc, peer, asked.as_slice())?;
    let Some(month) = unused_refund_month(grants.as_slice())? else {
        return Err(ClientFault::Refused);
    };
    let asked = grant_text(alloc, account, month, pages)?;
    tell(alloc, peer, asked.as_slice(), output)
}
