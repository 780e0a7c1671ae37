//! The command line, for `clap`.

use crate::asked::VERSION;
use crate::help::{Form, SubcommandHelp, WordHelp, subcommands};
use clap::{Arg, ArgAction, Command};
use std::alloc::{AllocError, Global};

/// The text below the help of the program.
const AFTER_HELP: &str = "\
Exit status:
  0  an accepted model, and what was asked for; a whole trace without a fault
  1  refused, not read, not written to the end, or out of memory
  2  no command, or help
  3  a whole trace with a fault of a component
  4  a partial trace: the rounds were used up, or memory ran out

A file of inputs has a line TICK PORT VALUE, or TICK.MICRO PORT VALUE, for each
value that comes to an input port of the root; '#' begins a comment line.
docs/TUTORIAL.md teaches the language of models, docs/REFERENCE.md has all of it
with the inputs and the trace, and docs/ERRORS.md the refusals and faults, as
'pdevs explain CODE'.";

/// The program with its subcommands, for `clap`.
pub(crate) fn command<'a>(alloc: Global) -> Result<Command<'a>, AllocError> {
    let mut program = Command::new(alloc, "pdevs")
        .bin_name("pdevs")?
        .version(VERSION)
        .about("Checks and runs Parallel DEVS models")
        .after_help(AFTER_HELP)
        .subcommand_required(true);
    for help in subcommands() {
        let one = subcommand(alloc, help)?;
        program = program.subcommand(one)?;
    }
    Ok(program)
}

/// A subcommand, for `clap`.
fn subcommand<'a>(alloc: Global, help: &SubcommandHelp) -> Result<Command<'a>, AllocError> {
    let mut command = Command::new(alloc, help.name).about(help.about);
    for word in help.words {
        command = command.arg(argument(alloc, word))?;
    }
    Ok(command)
}

/// A word of a subcommand, for `clap`.
fn argument<'a>(alloc: Global, word: &WordHelp) -> Arg<'a> {
    let argument = Arg::new(alloc, word.name)
        .required(word.is_required)
        .help(word.help);
    match word.form {
        Form::Plain(value) => argument.value_name(value),
        Form::Several(value) => argument
            .value_name(value)
            .num_args(1..)
            .action(ArgAction::Append),
        Form::Option(value, _) => argument
            .long(word.name)
            .value_name(value)
            .action(ArgAction::Set),
        Form::Flag => argument.long(word.name).action(ArgAction::SetTrue),
    }
}
