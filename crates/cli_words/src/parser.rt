//! The parser of command lines, made of the table of the commands.

use crate::words::{Argument, COMMANDS, CommandWords, Kind, SWITCHES};
use clap::builder::ValueParser;
use clap::{Arg, ArgAction, Command};
use std::alloc::{AllocError, Global};

const PROGRAM: &str = "ipp-room";

/// The version of the program.
pub const VERSION: &str = "1.1.0";

/// The parser of the program's command line, with all its commands.
pub(crate) fn program<'a>(alloc: Global) -> Result<Command<'a>, AllocError> {
    let commands = commands(alloc)?;
    bare_program(alloc)?.subcommands(commands)
}

/// The parser without the commands.
fn bare_program<'a>(alloc: Global) -> Result<Command<'a>, AllocError> {
    Command::new(alloc, PROGRAM)
        .about("Keeps IPP printers whose jobs wait until they are released")
        .version(VERSION)
        .no_binary_name(true)
        .subcommand_required(true)
        .bin_name(PROGRAM)
}

/// The parsers of all commands, in the order of the help.
fn commands<'a>(alloc: Global) -> Result<Vec<Command<'a>>, AllocError> {
    let mut commands = Vec::new(alloc);
    for words in COMMANDS.iter() {
        commands.push(command(alloc, words)?)?;
    }
    Ok(commands)
}

/// The parser of one command.
fn command<'a>(alloc: Global, words: &CommandWords) -> Result<Command<'a>, AllocError> {
    let arguments = arguments(alloc, words.arguments)?;
    Command::new(alloc, words.name)
        .about(words.about)
        .args(arguments)
}

/// The parsers of a command's words and options.
fn arguments<'a>(alloc: Global, words: &[Argument]) -> Result<Vec<Arg<'a>>, AllocError> {
    let mut arguments = Vec::new(alloc);
    for argument in words {
        arguments.push(argument_of(alloc, argument)?)?;
    }
    Ok(arguments)
}

/// The parser of one word or option, by its kind.
fn argument_of<'a>(alloc: Global, argument: &Argument) -> Result<Arg<'a>, AllocError> {
    let named = described(alloc, argument);
    match argument.kind {
        Kind::Required => Ok(named.required(true)),
        Kind::Switch => {
            let switches = ValueParser::Names(SWITCHES.as_slice());
            Ok(named.required(true).value_parser(switches))
        }
        Kind::Unless(flag) => named.required_unless_present(flag)?.conflicts_with(flag),
        Kind::Flag => Ok(named.long(argument.name).action(ArgAction::SetTrue)),
        Kind::FlagWithout(other) => named
            .long(argument.name)
            .action(ArgAction::SetTrue)
            .conflicts_with(other),
        Kind::After(flag) => Ok(named.long(flag)),
        Kind::Named(word) => Ok(named.long(argument.name).value_name(word)),
        Kind::Each(word) => Ok(
            named
                .long(argument.name)
                .value_name(word)
                .action(ArgAction::Append),
        ),
    }
}

/// A word or option with its help, and of no kind yet.
fn described<'a>(alloc: Global, argument: &Argument) -> Arg<'a> {
    let named = Arg::new(alloc, argument.name);
    match argument.help {
        Some(help) => named.help(help),
        None => named,
    }
}
