//! Standard input that is named for several files.

use crate::files::STANDARD_INPUT;
use dv_command::{PartitionChoice, Request, TraceFiles};

/// Whether a request names standard input for more than one file. It can be read only once, so the
/// second file would be empty.
pub fn shares_standard_input(request: &Request) -> bool {
    match request {
        Request::Run(run) => {
            is_shared(
                &run.model,
                file_of(run.partition.as_ref()),
                run.inputs.as_ref(),
            )
        }
        Request::Plan(plan) => is_shared(&plan.model, file_of(plan.partition.as_ref()), None),
        Request::Graph(graph) => {
            is_shared(&graph.file.model, file_of(graph.partition.as_ref()), None)
        }
        Request::Plot(plot) => is_shared_by_trace(&plot.files, None),
        Request::Vcd(waves) => is_shared_by_trace(&waves.files, waves.inputs.as_ref()),
        Request::Stats(stats) => is_shared_by_trace(&stats.files, stats.inputs.as_ref()),
        Request::Table(table) => is_shared_by_trace(&table.files, table.inputs.as_ref()),
        Request::Check(_) | Request::Code(_) | Request::Explain(_) | Request::Version(_) => false,
    }
}

fn is_shared_by_trace(files: &TraceFiles, inputs: Option<&String>) -> bool {
    is_shared(&files.model, Some(&files.trace), inputs)
}

fn is_shared(model: &String, second: Option<&String>, third: Option<&String>) -> bool {
    let names = [Some(model), second, third];
    names
        .iter()
        .filter(|name| is_standard_input(**name))
        .count()
        > 1
}

fn is_standard_input(name: Option<&String>) -> bool {
    match name {
        Some(name) => name.as_str() == STANDARD_INPUT,
        None => false,
    }
}

/// The file of a partition, if one is chosen.
fn file_of(choice: Option<&PartitionChoice>) -> Option<&String> {
    match choice {
        Some(PartitionChoice::File(name)) => Some(name),
        Some(PartitionChoice::Count(_)) | None => None,
    }
}
