//! From words and their parts to requests.

ghost use Rattle.std.specs.Prelude.{◌≡◌, ◌≤◌, ◌∷◌, [], IfOk, map, option_map, string_bytes};
ghost use Rattle.dv_time.specs.Limits.{greatest_limit, greatest_tick};
ghost use Rattle.dv_command.specs.Asked.{Asks, AsksBehind, AsksCheck, AsksCode, AsksDriving, AsksHorizon, AsksMicrosteps};
ghost use Rattle.dv_command.specs.Asked.{AsksModel, AsksRun, AsksWith, IfAnswered, IsAnswer, IsFitting, IsVersion, is_version};
ghost use Rattle.dv_command.specs.Subcommands.{subcommand_named};
ghost use Rattle.dv_command.specs.Steps.{said_in};
ghost use Rattle.dv_command.specs.Words.{values};

use crate::divided::{graph_in, partition_in, plan_in};
use crate::given::{count_in, flag_in, owned_text_in, values};
use crate::part::{Part, said_by};
use crate::request::{Check, ModelFile, Request, Run, USUAL_LIMIT};
use crate::subcommand::{Subcommand, subcommand_named};
use crate::unasked::Unasked;
use crate::viewed::{plot_in, run_stats_in, stats_in, table_in, waves_in};
use dv_explain::{Explanation, explanation_in_any_case};
use dv_time::{GREATEST_LIMIT, GREATEST_TICK};
use std::alloc::{AllocError, Global};

/// The version of the program. It is also in `specs/Asked.antt`.
pub(crate) const VERSION: &str = "0.1.0";

/// The most workers that a run may have.
pub(crate) const MOST_WORKERS: u64 = 256;

/// The value, if there is exactly one.
fn only_text<'a>(alloc: Global, parts: &[Part<'a>]) -> Result<&'a str, Unasked>
    ensures { IfAnswered result (λ r. IsFitting (λ text. values (map said_in parts.now) ≡ text ∷ [])
        (option_map (λ text. text.now) r)) }
{
    let texts = values(alloc, parts)?;
    match texts.as_slice() {
        [text] => Ok(*text),
        [] => Err(Unasked::Nothing),
        [_, _, ..] => Err(Unasked::Nothing),
    }
}

/// The same as `only_text`, with a copy of the value.
pub(crate) fn only_value(alloc: Global, parts: &[Part<'_>]) -> Result<String, Unasked>
    ensures { IfAnswered result (IsFitting (λ text. values (map said_in parts.now)
        ≡ string_bytes text ∷ [])) }
{
    let text = only_text(alloc, parts)?;
    Ok(String::from_str(alloc, text)?)
}

/// A model with `--explain` or without.
pub(crate) fn model_in(alloc: Global, parts: &[Part<'_>]) -> Result<ModelFile, Unasked>
    ensures { IfAnswered result (IsFitting (AsksModel (map said_in parts.now))) }
{
    Ok(ModelFile {
        model: only_value(alloc, parts)?,
        explained: flag_in(alloc, "--explain", parts)?,
    })
}

fn check_in(alloc: Global, parts: &[Part<'_>]) -> Result<Check, Unasked>
    ensures { IfAnswered result (IsFitting (AsksCheck (map said_in parts.now))) }
{
    Ok(Check {
        file: model_in(alloc, parts)?,
        warned: flag_in(alloc, "--warn", parts)?,
    })
}

/// The last tick of a run.
fn horizon_in(alloc: Global, parts: &[Part<'_>]) -> Result<u64, Unasked>
    ensures fits { IfAnswered result (IsFitting (AsksHorizon (map said_in parts.now))) }
    ensures in_range { IfOk result (λ tick. tick ≤ greatest_tick) }
{
    count_in(alloc, 0, GREATEST_TICK, "--horizon", parts)?.ok_or(Unasked::Nothing)
}

/// The greatest microstep of a tick, 20 if none is given.
fn microsteps_in(alloc: Global, parts: &[Part<'_>]) -> Result<u32, Unasked>
    ensures fits { IfAnswered result (IsFitting (AsksMicrosteps (map said_in parts.now))) }
    ensures in_range { IfOk result (λ limit. (1 ≤ limit) × (limit ≤ greatest_limit)) }
{
    let most = u64::from(GREATEST_LIMIT);
    match count_in(alloc, 1, most, "--microsteps", parts)? {
        Some(limit) => Ok(limit as u32),
        None => Ok(USUAL_LIMIT),
    }
}

/// The number of rounds and the number of workers. Only one of them may be given.
fn driving_in(alloc: Global, parts: &[Part<'_>]) -> Result<(Option<u64>, Option<u32>), Unasked>
    ensures { IfAnswered result (IsFitting (λ driving. AsksDriving (map said_in parts.now)
        driving.0 driving.1)) }
{
    let rounds = count_in(alloc, 0, u64::MAX, "--rounds", parts)?;
    let workers = count_in(alloc, 1, MOST_WORKERS, "--workers", parts)?;
    match (rounds, workers) {
        (None, None) => Ok((None, None)),
        (Some(rounds), None) => Ok((Some(rounds), None)),
        (None, Some(workers)) => Ok((None, Some(workers as u32))),
        (Some(_), Some(_)) => Err(Unasked::Nothing),
    }
}

fn run_in(alloc: Global, parts: &[Part<'_>]) -> Result<Run, Unasked>
    ensures { IfAnswered result (IsFitting (AsksRun (map said_in parts.now))) }
{
    let (rounds, workers) = driving_in(alloc, parts)?;
    Ok(Run {
        model: only_value(alloc, parts)?,
        partition: partition_in(alloc, parts)?,
        inputs: owned_text_in(alloc, "--inputs", parts)?,
        horizon: horizon_in(alloc, parts)?,
        microsteps: microsteps_in(alloc, parts)?,
        rounds,
        workers,
        explained: flag_in(alloc, "--explain", parts)?,
        stats: run_stats_in(alloc, parts)?,
        progress: flag_in(alloc, "--progress", parts)?,
    })
}

/// The explanation of the code that is given.
fn explanation_in(alloc: Global, parts: &[Part<'_>]) -> Result<&'static Explanation, Unasked>
    ensures { IfAnswered result (IsFitting (λ explanation. AsksCode (map said_in parts.now)
        explanation.now.code.now)) }
{
    let code = only_text(alloc, parts)?;
    explanation_in_any_case(alloc, code)?.ok_or(Unasked::Nothing)
}

/// What the parts behind a subcommand ask for.
fn asked_behind(
    alloc: Global,
    subcommand: Subcommand,
    parts: &[Part<'_>],
) -> Result<Request, Unasked>
    ensures { IfAnswered result (IsAnswer (AsksBehind subcommand (map said_in parts.now))) }
{
    match subcommand {
        Subcommand::Check => Ok(Request::Check(check_in(alloc, parts)?)),
        Subcommand::Code => Ok(Request::Code(model_in(alloc, parts)?)),
        Subcommand::Explain => Ok(Request::Explain(explanation_in(alloc, parts)?)),
        Subcommand::Graph => Ok(Request::Graph(graph_in(alloc, parts)?)),
        Subcommand::Plan => Ok(Request::Plan(plan_in(alloc, parts)?)),
        Subcommand::Plot => Ok(Request::Plot(plot_in(alloc, parts)?)),
        Subcommand::Run => Ok(Request::Run(run_in(alloc, parts)?)),
        Subcommand::Stats => Ok(Request::Stats(stats_in(alloc, parts)?)),
        Subcommand::Table => Ok(Request::Table(table_in(alloc, parts)?)),
        Subcommand::Vcd => Ok(Request::Vcd(waves_in(alloc, parts)?)),
    }
}

/// What the words behind the name of a subcommand ask for. The name may be any word.
fn asked_with(alloc: Global, name: &str, words: &[String]) -> Result<Request, Unasked>
    ensures { IfAnswered result (IsAnswer (AsksWith (subcommand_named name.now)
        (map string_bytes words.now))) }
{
    let Some(subcommand) = subcommand_named(name) else {
        return Err(Unasked::Nothing);
    };
    let parts = said_by(alloc, subcommand, words)?;
    asked_behind(alloc, subcommand, &parts)
}

/// Whether a word asks for the version.
fn is_version(word: &str) -> bool
    ensures { result ≡ is_version word.now }
{
    word == "--version" || word == "-V"
}

/// The request for the program's name and version.
fn version(alloc: Global) -> Result<Request, AllocError>
    ensures { IfOk result IsVersion }
{
    let mut text = String::from_str(alloc, "pdevs ")?;
    text.push_str(VERSION)?;
    text.push('\n')?;
    Ok(Request::Version(text))
}

/// What a command line asks for. The first word is the program's name.
///
/// # Errors
///
/// `Nothing`: it asks for nothing. `Memory`: an allocation was refused.
pub(crate) fn asked(alloc: Global, words: &[String]) -> Result<Request, Unasked>
    ensures { IfAnswered result (IsAnswer (Asks (map string_bytes words.now))) }
{
    match words {
        [_, word, rest @ ..] => {
            if is_version(word.as_str()) {
                return Ok(version(alloc)?);
            }
            asked_with(alloc, word.as_str(), rest)
        }
        [] => Err(Unasked::Nothing),
        [_] => Err(Unasked::Nothing),
    }
}
