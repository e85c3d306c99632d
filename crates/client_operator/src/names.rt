//! Asks for the names of all accounts, for the commands that go through all.
ghost use Rattle.std.specs.Prelude.{◌≡◌, IfOk, OnOk, map};
ghost use Rattle.client_lines.specs.Replies.{Known};
ghost use Rattle.client_operator.specs.Names.{AsksNames, TellsName, account_told, is_behind, last_of};
ghost use Rattle.client_operator.specs.Talks.{InTurn, over};

use crate::asked::accounts_line;
use account_rules::Name;
use client_lines::{ClientFault, Peer, after_word, ask_list};
use std::alloc::Global;
use std::io::{BufRead, Write};

/// Asks for the names of all accounts, by as many lines `accounts` as it takes: each asks behind
/// the last name that is known, until none is behind it. `Broken` where names come in any other
/// than rising order.
pub(crate) fn all_names<R: BufRead, W: Write>(
    alloc: Global,
    peer: &mut Peer<R, W>,
) -> Result<Vec<Name>, ClientFault>
    ensures { (printed : Known) → IfOk result (λ names. AsksNames
        (over W.contents R.remaining peer.old printed)
        (over W.contents R.remaining peer.new printed) names.items) }
{
    let mut names = Vec::new(alloc);
    for _ in 0..u64::MAX {
        let line = accounts_line(alloc, names.as_slice())?;
        let told = ask_list(alloc, peer, line.as_slice())?;
        let page = told.as_slice();
        if page.is_empty() {
            return Ok(names);
        }
        put_names(page, &mut names)?;
    }
    Err(ClientFault::Broken)
}

/// Adds the names that the lines tell.
fn put_names(lines: &[Vec<u8>], names: &mut Vec<Name>) -> Result<(), ClientFault>
    ensures { OnOk result (InTurn TellsName names.old.items names.new.items
        (map (λ line. line.items) lines.now)) }
{
    for line in lines {
        put_name(line.as_slice(), names)?;
    }
    Ok(())
}

/// Adds the name that a line `account NAME` tells. `Broken` where it does not come behind all that
/// are there.
fn put_name(line: &[u8], names: &mut Vec<Name>) -> Result<(), ClientFault>
    ensures { OnOk result (TellsName line.now names.old.items names.new.items) }
{
    let name = name_said(line)?;
    if !is_behind(names.as_slice(), &name) {
        return Err(ClientFault::Broken);
    }
    Ok(names.push(name)?)
}

/// Reads the name of a line `account NAME`.
fn name_said(line: &[u8]) -> Result<Name, ClientFault>
    ensures { IfOk result (λ name. line.now ≡ account_told name) }
{
    let name = after_word(line, b"account").ok_or(ClientFault::Broken)?;
    Name::read(name).ok_or(ClientFault::Broken)
}

/// Whether the name comes behind the last of these, which rise.
fn is_behind(names: &[Name], name: &Name) -> bool
    ensures { result ≡ is_behind (last_of names.now) name.now }
{
    match names.last() {
        Some(last) => last.bytes().cmp(name.bytes()).is_lt(),
        None => true,
    }
}
