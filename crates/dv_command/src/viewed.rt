//! From parts to requests for views of a trace.

ghost use Rattle.std.specs.Prelude.{◌≡◌, IfOk, map, string_bytes};
ghost use Rattle.dv_command.specs.Asked.{AsksExcerpt, AsksFlow, AsksPlot, AsksRunStats, AsksStats, AsksStatsChoice, AsksTable};
ghost use Rattle.dv_command.specs.Asked.{AsksTrace, AsksWaves, AsksWindow, IfAnswered, IsFitting, are_in_order, has_no_stats_choice};
ghost use Rattle.dv_command.specs.Steps.{said_in};

use crate::given::{count_in, flag_in, is_left_out, owned_text_in, text_in, values};
use crate::part::Part;
use crate::request::{Excerpt, Flow, Plot, Stats, StatsChoice, Table, TraceFiles, Waves};
use crate::unasked::Unasked;
use dv_time::GREATEST_TICK;
use std::alloc::{AllocError, Global};

/// The first tick that counts and the last one, if they are given.
type Window = (Option<u64>, Option<u64>);

/// The files of a model and its trace.
fn trace_in(alloc: Global, parts: &[Part<'_>]) -> Result<TraceFiles, Unasked>
    ensures { IfAnswered result (IsFitting (AsksTrace (map said_in parts.now))) }
{
    let texts = values(alloc, parts)?;
    match texts.as_slice() {
        [model, trace] => Ok(TraceFiles {
            model: String::from_str(alloc, model)?,
            trace: String::from_str(alloc, trace)?,
            partial: flag_in(alloc, "--partial", parts)?,
            explained: flag_in(alloc, "--explain", parts)?,
        }),
        [] => Err(Unasked::Nothing),
        [_] => Err(Unasked::Nothing),
        [_, _, _, ..] => Err(Unasked::Nothing),
    }
}

/// The part of a trace that is asked for.
fn excerpt_in(alloc: Global, parts: &[Part<'_>]) -> Result<Excerpt, Unasked>
    ensures { IfAnswered result (IsFitting (AsksExcerpt (map said_in parts.now))) }
{
    let (from, to) = window_in(alloc, parts)?;
    Ok(Excerpt {
        from,
        to,
        only: owned_text_in(alloc, "--only", parts)?,
    })
}

/// The request for a value change dump.
pub(crate) fn waves_in(alloc: Global, parts: &[Part<'_>]) -> Result<Waves, Unasked>
    ensures { IfAnswered result (IsFitting (AsksWaves (map said_in parts.now))) }
{
    Ok(Waves {
        files: trace_in(alloc, parts)?,
        excerpt: excerpt_in(alloc, parts)?,
        inputs: owned_text_in(alloc, "--inputs", parts)?,
        holds_ports: flag_in(alloc, "--hold-ports", parts)?,
        timescale: owned_text_in(alloc, "--timescale", parts)?,
    })
}

/// Whether the last tick is not before the first one, if both are given.
fn are_in_order(first: Option<u64>, last: Option<u64>) -> bool
    ensures { result ≡ are_in_order first last }
{
    match (first, last) {
        (Some(first), Some(last)) => first <= last,
        (Some(_), None) => true,
        (None, Some(_)) => true,
        (None, None) => true,
    }
}

/// The ticks that count.
fn window_in(alloc: Global, parts: &[Part<'_>]) -> Result<Window, Unasked>
    ensures { IfAnswered result (IsFitting (λ window. AsksWindow (map said_in parts.now)
        window.0 window.1)) }
{
    let first = count_in(alloc, 0, GREATEST_TICK, "--from", parts)?;
    let last = count_in(alloc, 0, GREATEST_TICK, "--to", parts)?;
    if are_in_order(first, last) {
        Ok((first, last))
    } else {
        Err(Unasked::Nothing)
    }
}

/// Copies of texts.
fn owned(alloc: Global, texts: &[&str]) -> Result<Vec<String>, AllocError>
    ensures { IfOk result (λ r. map string_bytes r.items ≡ map (λ text. text.now) texts.now) }
{
    let mut copies = Vec::with_capacity(alloc, texts.len())?;
    for text in texts {
        copies.push(String::from_str(alloc, text)?)?;
    }
    Ok(copies)
}

/// The request for curves.
pub(crate) fn plot_in(alloc: Global, parts: &[Part<'_>]) -> Result<Plot, Unasked>
    ensures { IfAnswered result (IsFitting (AsksPlot (map said_in parts.now))) }
{
    let (from, to) = window_in(alloc, parts)?;
    let texts = values(alloc, parts)?;
    match texts.as_slice() {
        [model, trace, names @ ..] if names.len() > 0 => Ok(Plot {
            files: TraceFiles {
                model: String::from_str(alloc, model)?,
                trace: String::from_str(alloc, trace)?,
                partial: flag_in(alloc, "--partial", parts)?,
                explained: flag_in(alloc, "--explain", parts)?,
            },
            names: owned(alloc, names)?,
            from,
            to,
        }),
        _ => Err(Unasked::Nothing),
    }
}

/// The ports between which times are taken, if they are given.
fn flow_in(alloc: Global, parts: &[Part<'_>]) -> Result<Option<Flow>, Unasked>
    ensures { IfAnswered result (IsFitting (AsksFlow (map said_in parts.now))) }
{
    let ports = text_in(alloc, "--flow", parts)?;
    let by_value = flag_in(alloc, "--by-value", parts)?;
    match (ports, by_value) {
        (None, false) => Ok(None),
        (Some(text), by_value) => {
            let ports = String::from_str(alloc, text)?;
            Ok(Some(Flow { ports, by_value }))
        }
        (None, true) => Err(Unasked::Nothing),
    }
}

/// The options that say what is counted of a trace, and how it is printed.
fn stats_choice_in(alloc: Global, parts: &[Part<'_>]) -> Result<StatsChoice, Unasked>
    ensures { IfAnswered result (IsFitting (AsksStatsChoice (map said_in parts.now))) }
{
    Ok(StatsChoice {
        excerpt: excerpt_in(alloc, parts)?,
        flow: flow_in(alloc, parts)?,
        quantiles: flag_in(alloc, "--quantiles", parts)?,
        csv: flag_in(alloc, "--csv", parts)?,
    })
}

/// The request for the numbers of a trace.
pub(crate) fn stats_in(alloc: Global, parts: &[Part<'_>]) -> Result<Stats, Unasked>
    ensures { IfAnswered result (IsFitting (AsksStats (map said_in parts.now))) }
{
    Ok(Stats {
        files: trace_in(alloc, parts)?,
        inputs: owned_text_in(alloc, "--inputs", parts)?,
        choice: stats_choice_in(alloc, parts)?,
    })
}

/// Whether no option is given that says what is counted.
fn has_no_stats_choice(alloc: Global, parts: &[Part<'_>]) -> Result<bool, AllocError>
    ensures { IfOk result (λ r. r ≡ has_no_stats_choice (map said_in parts.now)) }
{
    Ok(
        is_left_out(alloc, "--from", parts)?
            && is_left_out(alloc, "--to", parts)?
            && is_left_out(alloc, "--only", parts)?
            && is_left_out(alloc, "--flow", parts)?
            && is_left_out(alloc, "--by-value", parts)?
            && is_left_out(alloc, "--quantiles", parts)?
            && is_left_out(alloc, "--csv", parts)?,
    )
}

/// The numbers that a run prints instead of its trace, if they are asked for.
pub(crate) fn run_stats_in(
    alloc: Global,
    parts: &[Part<'_>],
) -> Result<Option<StatsChoice>, Unasked>
    ensures { IfAnswered result (IsFitting (AsksRunStats (map said_in parts.now))) }
{
    if flag_in(alloc, "--stats", parts)? {
        Ok(Some(stats_choice_in(alloc, parts)?))
    } else if has_no_stats_choice(alloc, parts)? {
        Ok(None)
    } else {
        Err(Unasked::Nothing)
    }
}

/// The request for a table.
pub(crate) fn table_in(alloc: Global, parts: &[Part<'_>]) -> Result<Table, Unasked>
    ensures { IfAnswered result (IsFitting (AsksTable (map said_in parts.now))) }
{
    Ok(Table {
        files: trace_in(alloc, parts)?,
        excerpt: excerpt_in(alloc, parts)?,
        inputs: owned_text_in(alloc, "--inputs", parts)?,
        json: flag_in(alloc, "--json", parts)?,
    })
}
