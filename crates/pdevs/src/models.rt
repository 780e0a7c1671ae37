//! The subcommands `check`, `code`, `plan` and `graph`.

use crate::files::{read, read_parting};
use crate::printed::print_through;
use crate::told::tell_error;
use crate::{ACCEPTED, REFUSED};
use dv_command::{Check, Graph, GraphChoice, ModelFile, Plan};
use dv_job::{check_bytes, list_code, plan_bytes};
use dv_views::{GraphOptions, Shown, ViewError, graph_bytes, warnings_bytes};
use std::io;
use std::rt::Files;

/// Checks a model, prints its warnings if they are asked for, and returns the status.
///
/// # Errors
///
/// A write failed, or an allocation was refused.
pub fn check_model<R: AllocGlobal + Files + Input + Print + Eprint>(
    rt: &R,
    check: &Check,
) -> io::Result<u8> {
    let Some(model) = read(rt, check.file.model.as_str(), check.file.explained)? else {
        return Ok(REFUSED);
    };
    match check_bytes(rt.alloc(), &model.bytes) {
        Ok(components) => println!(rt; "accepted {components}")?,
        Err(error) => {
            tell_error(rt, model.texts(), &error, check.file.explained);
            return Ok(REFUSED);
        }
    }
    if !check.warned {
        return Ok(ACCEPTED);
    }
    let alloc = rt.alloc();
    let printed = print_through(rt, |writer| {
        warnings_bytes(alloc, model.name, &model.bytes, writer)
    });
    Ok(printed.status(rt, model.texts(), check.file.explained))
}

/// Prints the programs of a model, and returns the status.
///
/// # Errors
///
/// An allocation was refused.
pub fn list_model<R: AllocGlobal + Files + Input + Print + Eprint>(
    rt: &R,
    code: &ModelFile,
) -> io::Result<u8> {
    let Some(model) = read(rt, code.model.as_str(), code.explained)? else {
        return Ok(REFUSED);
    };
    let alloc = rt.alloc();
    let printed = print_through(rt, |writer| {
        list_code(alloc, &model.bytes, writer).map_err(ViewError::Job)
    });
    Ok(printed.status(rt, model.texts(), code.explained))
}

/// Prints the plan of a model, and returns the status. Files are read in the order model,
/// partition.
///
/// # Errors
///
/// A write failed, or an allocation was refused.
pub fn plan_model<R: AllocGlobal + Files + Input + Print + Eprint>(
    rt: &R,
    plan: &Plan,
) -> io::Result<u8> {
    let Some(model) = read(rt, plan.model.as_str(), plan.explained)? else {
        return Ok(REFUSED);
    };
    let Some(parting) = read_parting(rt, plan.partition.as_ref(), plan.explained)? else {
        return Ok(REFUSED);
    };
    match plan_bytes(rt.alloc(), &model.bytes, parting.partition()) {
        Ok(text) => {
            println!(rt; "{text}")?;
            Ok(ACCEPTED)
        }
        Err(error) => {
            tell_error(rt, model.texts_in(&parting), &error, plan.explained);
            Ok(REFUSED)
        }
    }
}

/// Prints the graph of a model, and returns the status. Files are read in the order model,
/// partition.
///
/// # Errors
///
/// An allocation was refused.
pub fn graph_model<R: AllocGlobal + Files + Input + Print + Eprint>(
    rt: &R,
    graph: &Graph,
) -> io::Result<u8> {
    let Some(model) = read(rt, graph.file.model.as_str(), graph.file.explained)? else {
        return Ok(REFUSED);
    };
    let Some(parting) = read_parting(rt, graph.partition.as_ref(), graph.file.explained)? else {
        return Ok(REFUSED);
    };
    let groups = if graph.partition.is_some() {
        Some(parting.partition())
    } else {
        None
    };
    let options = GraphOptions {
        groups,
        shown: shown(&graph.choice),
    };
    let alloc = rt.alloc();
    let printed = print_through(rt, |writer| {
        graph_bytes(alloc, &model.bytes, &options, writer)
    });
    Ok(printed.status(rt, model.texts_in(&parting), graph.file.explained))
}

/// What of a model a graph shows.
fn shown(choice: &GraphChoice) -> Shown<'_> {
    match choice {
        GraphChoice::All => Shown::All,
        GraphChoice::Depth(depth) => Shown::Depth(*depth),
        GraphChoice::Phases(name) => Shown::Phases(name.as_str()),
    }
}
