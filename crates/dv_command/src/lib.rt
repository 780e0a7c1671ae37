//! Reads command lines.
//!
//! `request_of` reads the words of a command line and returns a `Request`: a subcommand with its
//! files and options, whose numbers are within their ranges. The words are first cut into parts
//! (values, flags, options with their values), and each subcommand then takes its parts. `specs/`
//! defines what words ask for. It is proved that they ask for the request that is returned, and
//! that `Usage` is returned only if they ask for nothing. Only then `clap` is called: it makes the
//! text of the help or of the error.
//!
//! No file is opened here. Whether a model has a component of a path, or can be divided into so
//! many processes, is tested later.
#![tactic(auto)]

/// From parts to requests.
mod asked;
/// The command line, for `clap`.
mod command;
/// From words to a request.
mod command_line;
/// From parts to requests for plans and graphs.
mod divided;
/// Words that other programs take.
mod foreign;
/// Values and options among parts.
mod given;
/// The help of subcommands and their words.
mod help;
/// Numbers in decimal digits.
mod number;
/// From words to parts.
mod part;
/// What a command line can ask for.
pub mod request;
/// The subcommands, their names and their options.
mod subcommand;
/// Why words ask for nothing.
mod unasked;
/// The text of help and of errors.
mod usage;
/// From parts to requests for views of a trace.
mod viewed;

pub use command_line::request_of;
pub use request::{
    Check, Excerpt, Flow, Graph, GraphChoice, ModelFile, PartitionChoice, Plan, Plot, Request,
    RequestError, Run, Stats, StatsChoice, Table, TraceFiles, Usage, Waves,
};
