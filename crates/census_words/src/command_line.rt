//! The command line of the program, made from the table of the commands.

use crate::table::{Chapter, CommandRow};
use crate::words::{self, Choice, Takes, Times, Word};
use clap::{Arg, ArgAction, Command};
use std::alloc::{AllocError, Global};

/// The command line of a program with these commands, and with this first screen of its help.
pub fn command<'a>(
    alloc: Global,
    chapters: &[Chapter],
    screen: &'a str,
) -> Result<Command<'a>, AllocError> {
    let mut command = Command::new(alloc, "census")
        .bin_name("census")?
        .version("2.14.0")
        .override_help(screen)
        .no_binary_name(true)
        .subcommand_required(true)
        .arg(explain(alloc))?;
    for chapter in chapters {
        for row in chapter.rows {
            command = command.subcommand(command_of(alloc, row)?)?;
        }
    }
    Ok(command)
}

// The command of this row.
fn command_of<'a>(alloc: Global, row: &CommandRow) -> Result<Command<'a>, AllocError> {
    let mut command = Command::new(alloc, row.name)
        .about(row.about)
        .after_help(row.after);
    for &word in row.words {
        command = command.arg(argument_of(alloc, word)?)?;
        for &option in word.times.instead() {
            command = command.arg(alternative_of(alloc, option, word.times.instead())?)?;
        }
    }
    for &option in row.options {
        command = command.arg(option_of(alloc, option))?;
    }
    Ok(command)
}

// The argument that this word is.
fn argument_of<'a>(alloc: Global, word: Word) -> Result<Arg<'a>, AllocError> {
    let argument = Arg::new(alloc, word.name).help(word.meaning);
    match word.times {
        Times::One => Ok(argument.required(true)),
        Times::OneOr(options, shown) => argument_or(alloc, argument.value_name(shown), options),
        Times::OneOrNone => Ok(argument),
        Times::OneOrMore => Ok(
            argument
                .action(ArgAction::Append)
                .num_args(1..)
                .required(true),
        ),
        Times::OneOrMoreUnless(option) => argument
            .action(ArgAction::Append)
            .num_args(1..)
            .required_unless_present(option.name),
        Times::Any => Ok(argument.action(ArgAction::Append).num_args(0..)),
    }
}

// The argument in whose place one of these options may stand.
fn argument_or<'a>(
    alloc: Global,
    argument: Arg<'a>,
    options: &[Choice],
) -> Result<Arg<'a>, AllocError> {
    let mut names = Vec::new(alloc);
    for option in options {
        names.push(option.name)?;
    }
    argument
        .required_unless_present_any(&names)?
        .conflicts_with_all(&names)
}

// The argument that this option is.
fn option_of<'a>(alloc: Global, choice: Choice) -> Arg<'a> {
    let option = Arg::new(alloc, choice.name)
        .long(choice.name)
        .help(choice.meaning);
    let option = match choice.takes {
        Takes::Nothing => option.action(ArgAction::SetTrue),
        Takes::One(value) => option.value_name(value).action(ArgAction::Set),
        Takes::Many(value) => option.value_name(value).action(ArgAction::Append),
    };
    match choice.default {
        Some(value) => option.default_value(value),
        None => option,
    }
}

// The argument that this option is, which goes with no other of these.
fn alternative_of<'a>(
    alloc: Global,
    choice: Choice,
    all: &[Choice],
) -> Result<Arg<'a>, AllocError> {
    let mut option = option_of(alloc, choice);
    for other in all {
        if other.name != choice.name {
            option = option.conflicts_with(other.name)?;
        }
    }
    Ok(option)
}

// The option that every command takes, also before its name. The help of the program says what it does, and that of a
// command is no longer for it.
fn explain<'a>(alloc: Global) -> Arg<'a> {
    option_of(alloc, words::EXPLAIN).global(true).hide(true)
}
