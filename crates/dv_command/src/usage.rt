//! The text of help and of errors.

use crate::command::command;
use crate::foreign::{dash_reason, foreign_reason};
use crate::help::{Form, Value, WordHelp, subcommands};
use crate::part::is_value;
use clap::ArgMatches;
use clap::error::ErrorKind;
use dv_explain::{Explanation, faults, input_refusals, partition_refusals, refusals};
use std::alloc::{AllocError, Global};

/// An option with a wrong value, or without one.
#[derive(Drop)]
struct Misfit<'a> {
    /// The option's name, without its hyphens.
    name: &'a str,
    /// What the option takes.
    value: Value,
    /// What is given instead, if anything.
    text: Option<&'a str>,
}

/// The text to print if the words are no command or ask for help.
///
/// # Errors
///
/// An allocation was refused.
pub(crate) fn usage_text(alloc: Global, words: &[String]) -> Result<String, AllocError> {
    match command(alloc)?.try_get_matches_from(words) {
        Ok(matches) => match matches.subcommand() {
            Some(("explain", _)) => refused(alloc, unknown_code(alloc)?.as_str()),
            Some((name, subcommand)) => match first_misfit(words) {
                Some(misfit) => refused_misfit(alloc, &misfit),
                None => refused(alloc, reason(name, subcommand)),
            },
            None => refused(alloc, "a subcommand is wanted"),
        },
        Err(error) => match error.kind() {
            ErrorKind::OutOfMemory => Err(AllocError),
            ErrorKind::DisplayHelp | ErrorKind::DisplayHelpOnMissingArgumentOrSubcommand => {
                match dash_reason(words) {
                    Some(reason) => refused(alloc, reason),
                    None => error.to_string(alloc),
                }
            }
            ErrorKind::DisplayVersion => refused(
                alloc,
                "the version is asked for by the word --version, or -V",
            ),
            _ => match (
                first_misfit(words),
                dash_reason(words)
                    .or(foreign_reason(words))
                    .or(second_file_reason(words)),
            ) {
                (Some(misfit), _) => refused_misfit(alloc, &misfit),
                (None, Some(reason)) => refused(alloc, reason),
                (None, None) => error.to_string(alloc),
            },
        },
    }
}

/// Why words ask for nothing although `clap` accepts them and each option has a value that it
/// takes.
fn reason(subcommand: &str, matches: &ArgMatches) -> &'static str {
    let has = |name: &str| matches.get_str(name).is_some();
    if has("partition") && has("processes") {
        "a partition or a number of processes is given, not both"
    } else if has("depth") && has("model") {
        "a depth or a model whose phases are shown is given, not both"
    } else if has("model") && (has("partition") || has("processes")) {
        "processes are not shown where phases are: --model stands without --partition and --processes"
    } else if has("rounds") && has("workers") {
        "rounds are not counted where there are workers"
    } else if subcommand == "run" && !matches.get_flag("stats") && has_stats_choice(matches) {
        "--from, --to, --only, --flow, --by-value, --quantiles and --csv go with --stats"
    } else if (subcommand == "run" || subcommand == "stats")
        && matches.get_flag("by-value")
        && !has("flow")
    {
        "values are paired by --by-value only where --flow names two ports"
    } else if has("from") && has("to") {
        "the last tick that counts, --to, is before the first one, --from"
    } else {
        "these words are no command"
    }
}

/// Whether an option is given that says what of a trace is counted.
fn has_stats_choice(matches: &ArgMatches) -> bool {
    let has = |name: &str| matches.get_str(name).is_some();
    has("from")
        || has("to")
        || has("only")
        || has("flow")
        || matches.get_flag("by-value")
        || matches.get_flag("quantiles")
        || matches.get_flag("csv")
}

/// The first option with a wrong value, or without one. The first word is the program's name, the
/// second one that of the subcommand.
fn first_misfit(words: &[String]) -> Option<Misfit<'_>> {
    let takes = words_of(words.get(1)?.as_str());
    for (index, word) in words.iter().enumerate().skip(2) {
        if word.as_str() == "--" {
            return None;
        }
        let next = match words.get(index.saturating_add(1)) {
            Some(next) => Some(next.as_str()),
            None => None,
        };
        if let Some(misfit) = misfit_at(takes, word.as_str(), next) {
            return Some(misfit);
        }
    }
    None
}

/// Why `run` refuses a second file, which is mostly meant as its inputs.
fn second_file_reason(words: &[String]) -> Option<&'static str> {
    if words.get(1)?.as_str() == "run" && files_of_run(words) > 1 {
        Some("the inputs of a run are given by --inputs")
    } else {
        None
    }
}

/// How many words of a run are neither options nor their values.
fn files_of_run(words: &[String]) -> usize {
    let takes = words_of("run");
    let mut files: usize = 0;
    let mut is_behind_option = false;
    for word in words.iter().skip(2) {
        let word = word.as_str();
        if is_value(word) && !is_behind_option {
            files = files.saturating_add(1);
        }
        is_behind_option = match word.strip_prefix("--") {
            Some(option) => value_of(takes, option).is_some(),
            None => false,
        };
    }
    files
}

/// The words that the subcommand of this name takes.
fn words_of(subcommand: &str) -> &'static [WordHelp] {
    match subcommands().iter().find(|help| help.name == subcommand) {
        Some(help) => help.words,
        None => &[],
    }
}

/// The option that a word names, if its value is wrong or missing. The value is behind `=`, or is
/// the next word, unless that looks like an option.
fn misfit_at<'a>(takes: &[WordHelp], word: &'a str, next: Option<&'a str>) -> Option<Misfit<'a>> {
    let option = word.strip_prefix("--")?;
    let (name, text, may_stand) = match option.split_once('=') {
        Some((name, text)) => (name, Some(text), true),
        None => (option, next, next.is_some_and(|next| is_value(next))),
    };
    let value = value_of(takes, name)?;
    match text {
        Some(text) if may_stand && value.takes(text) => None,
        text => Some(Misfit { name, value, text }),
    }
}

/// What the option of this name takes, if there is one.
fn value_of(takes: &[WordHelp], name: &str) -> Option<Value> {
    let word = takes.iter().find(|word| word.name == name)?;
    match word.form {
        Form::Option(_, value) => Some(value),
        Form::Plain(_) | Form::Several(_) | Form::Flag => None,
    }
}

/// The error of an unknown code, with a list of all codes.
fn unknown_code(alloc: Global) -> Result<String, AllocError> {
    let mut reason = String::from_str(alloc, "there is no such code; the codes are")?;
    push_codes(&mut reason, refusals())?;
    push_codes(&mut reason, input_refusals())?;
    push_codes(&mut reason, partition_refusals())?;
    push_codes(&mut reason, faults())?;
    Ok(reason)
}

fn push_codes(text: &mut String, explanations: &[Explanation]) -> Result<(), AllocError> {
    for explanation in explanations {
        text.push(' ')?;
        text.push_str(explanation.code)?;
    }
    Ok(())
}

/// The error of an option with a wrong value, or without one.
fn refused_misfit(alloc: Global, misfit: &Misfit<'_>) -> Result<String, AllocError> {
    let name = misfit.name;
    let takes = misfit.value.words;
    let reason = match misfit.text {
        Some(text) => format!(in alloc; "--{name} takes {takes}; `{text}` is none")?,
        None => format!(in alloc; "--{name} takes {takes}; nothing stands behind it")?,
    };
    refused(alloc, reason.as_str())
}

/// The text of an error, in the form of those of `clap`.
fn refused(alloc: Global, reason: &str) -> Result<String, AllocError> {
    format!(in alloc; "error: {reason}\n\nFor more information, try '--help'.\n")
}
