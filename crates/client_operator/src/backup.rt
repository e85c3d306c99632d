//! Has a process back up its database, slice by slice.
ghost use Rattle.std.specs.Prelude.{◌≡◌, IfOk, OnOk, codes};
ghost use Rattle.client_lines.specs.Replies.{Known};
ghost use Rattle.client_operator.specs.Backups.{AsksSlices, BacksUp, slice_told};
ghost use Rattle.client_operator.specs.Talks.{Asks, over};

use crate::asked::{backup_line, slice_line};
use client_lines::{ClientFault, Peer, ask_line, judge};
use std::alloc::Global;
use std::io::{BufRead, Write};

/// Has the process back up its database into FILE.part, by as many lines `slice` as it takes, until
/// it tells that this is whole and closed. `Failed` where it tells that the backup failed,
/// `Refused` where it makes none of this file, as while another backup is under way.
pub fn back_up<R: BufRead, W: Write>(
    alloc: Global,
    peer: &mut Peer<R, W>,
    file: &str,
) -> Result<(), ClientFault>
    ensures { (printed : Known) → OnOk result (BacksUp file.now
        (over W.contents R.remaining peer.old printed)
        (over W.contents R.remaining peer.new printed)) }
{
    let begin = backup_line(alloc, file)?;
    // What is asked takes no more memory once the backup is begun.
    let slice = slice_line(alloc, file)?;
    ask_ok(alloc, peer, begin.as_slice())?;
    ask_slices(alloc, peer, slice.as_slice())
}

/// Sends a line, and checks that it is answered by `ok`.
fn ask_ok<R: BufRead, W: Write>(
    alloc: Global,
    peer: &mut Peer<R, W>,
    line: &[u8],
) -> Result<(), ClientFault>
    ensures { (printed : Known) → OnOk result (Asks
        (over W.contents R.remaining peer.old printed)
        (over W.contents R.remaining peer.new printed) line.now (codes "ok")) }
{
    let told = ask_line(alloc, peer, line)?;
    be_ok(told.as_slice())
}

/// Sends the line `slice` again and again, until no more is to come.
fn ask_slices<R: BufRead, W: Write>(
    alloc: Global,
    peer: &mut Peer<R, W>,
    line: &[u8],
) -> Result<(), ClientFault>
    ensures { (printed : Known) → OnOk result (AsksSlices line.now
        (over W.contents R.remaining peer.old printed)
        (over W.contents R.remaining peer.new printed)) }
{
    for _ in 0..u64::MAX {
        let is_more = ask_slice(alloc, peer, line)?;
        if !is_more {
            return Ok(());
        }
    }
    Err(ClientFault::Broken)
}

/// Sends the line `slice` once. Gives whether more is to come.
fn ask_slice<R: BufRead, W: Write>(
    alloc: Global,
    peer: &mut Peer<R, W>,
    line: &[u8],
) -> Result<bool, ClientFault>
    ensures { (printed : Known) → IfOk result (λ is_more. Asks
        (over W.contents R.remaining peer.old printed)
        (over W.contents R.remaining peer.new printed) line.now (slice_told is_more)) }
{
    let told = ask_line(alloc, peer, line)?;
    is_more(told.as_slice())
}

/// Whether the answer to `slice` tells that more is to come. Where it does not, it has to be `ok`.
fn is_more(told: &[u8]) -> Result<bool, ClientFault>
    ensures { IfOk result (λ is_more. told.now ≡ slice_told is_more) }
{
    if told == b"more".as_slice() {
        return Ok(true);
    }
    be_ok(told)?;
    Ok(false)
}

/// Checks that the answer is `ok`. `Failed` or `Refused` where it says so, else `Broken`.
fn be_ok(told: &[u8]) -> Result<(), ClientFault>
    ensures { OnOk result (told.now ≡ codes "ok") }
{
    if told == b"ok".as_slice() {
        return Ok(());
    }
    judge(told)?;
    Err(ClientFault::Broken)
}
