//! A test program: it makes lists of steps with the processes of models, and compares what each
//! process has committed with the plain run.
//!
//! The steps are random ones in random partitions, of given models and of random ones, and the
//! first steps of the serial driver. The expected values are the parts of the trace that
//! `resultant_run` of `dv_plain` computes, before the clock of each process. `run_steps` of
//! `dv_job` is tested.
//!
//! The first word names a file of seeds, one in a line, and each other word names a model.
#![tactic(auto)]

/// The first steps of the serial driver, after which every process stops.
mod first_steps;
/// Random models, as text.
mod models;
/// A model in processes, beside its plain run.
mod division;
/// Random partitions and random lists of steps.
mod random;
/// What random steps in a random partition commit, beside the plain run.
mod random_steps;
/// How many comparisons agree.
mod tally;

use crate::first_steps::Driven;
use crate::models::model_text;
use crate::random::Source;
use crate::tally::Tally;
use std::io;
use std::process::ExitCode;
use std::rt::Files;

/// The serial driver makes fewer first steps than these.
const FIRST_STEPS: usize = 120;

fn main(rt: HostRuntime) -> io::Result<ExitCode> {
    let words: Vec<String> = std::env::args(&rt)?.skip(1).collect(rt.alloc())?;
    let mut words = words.iter();
    let Some(name) = words.next() else {
        return Ok(ExitCode::FAILURE);
    };
    let seeds = std::fs::read_to_string(&rt, name.as_str())?;
    let mut do_all_agree = true;
    for model in words {
        let text = std::fs::read_to_string(&rt, model.as_str())?;
        let random = agrees(&rt, model.as_str(), text.as_str(), seeds.as_str())?;
        let driven = agrees_at_first(&rt, model.as_str(), text.as_str())?;
        do_all_agree = do_all_agree && random && driven;
    }
    let models = do_models_agree(&rt, seeds.as_str())?;
    Ok(if do_all_agree && models {
        ExitCode::SUCCESS
    } else {
        ExitCode::FAILURE
    })
}

/// Tells whether a model agrees with the plain run at every seed.
fn agrees<R: AllocGlobal + Files + Print>(
    rt: &R,
    name: &str,
    text: &str,
    seeds: &str,
) -> io::Result<bool> {
    let mut tally = Tally::new();
    for line in seeds.lines() {
        let Ok(seed) = line.parse::<u64>() else {
            continue;
        };
        let agrees = random_steps::agrees(rt.alloc(), text, &mut Source::new(seed))?;
        tally.count(agrees);
        if !agrees {
            println!(rt; "{name}: differs at {seed}")?;
        }
    }
    println!(rt; "{name}: {} agree", tally.agreeing)?;
    Ok(tally.do_all_agree())
}

/// Tells whether a model agrees with the plain run after any number of the serial driver's first
/// steps.
fn agrees_at_first<R: AllocGlobal + Files + Print>(
    rt: &R,
    name: &str,
    text: &str,
) -> io::Result<bool> {
    let Some(driven) = Driven::new(rt.alloc(), text)? else {
        return Ok(false);
    };
    let mut tally = Tally::new();
    for count in 0..FIRST_STEPS {
        let agrees = driven.agrees(rt.alloc(), count)?;
        tally.count(agrees);
        if !agrees {
            println!(rt; "{name}: differs after {count} first steps")?;
        }
    }
    println!(rt; "{name}: {} first steps agree", tally.agreeing)?;
    Ok(tally.do_all_agree())
}

/// Tells whether the random model of every seed agrees with its plain run.
fn do_models_agree<R: AllocGlobal + Files + Print>(rt: &R, seeds: &str) -> io::Result<bool> {
    let mut tally = Tally::new();
    for line in seeds.lines() {
        let Ok(seed) = line.parse::<u64>() else {
            continue;
        };
        let mut source = Source::new(seed);
        let text = model_text(rt.alloc(), &mut source)?;
        let agrees = random_steps::agrees(rt.alloc(), text.as_str(), &mut source)?;
        tally.count(agrees);
        if !agrees {
            println!(rt; "random: differs at {seed}")?;
        }
    }
    println!(rt; "random: {} agree", tally.agreeing)?;
    Ok(tally.do_all_agree())
}
