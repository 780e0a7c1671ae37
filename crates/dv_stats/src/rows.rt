//! From counts to rows.

use crate::cell::Cell;
use crate::component::ComponentCount;
use crate::counts::Counts;
use crate::flow::Flow;
use crate::histogram::Histogram;
use crate::options::Form;
use crate::output::{Instants, OutputCount};
use crate::port::PortCount;
use crate::section::{Kind, Named, Path, Sample, Section};
use crate::spread::deviation_of;
use crate::summary::{Extremes, Summary};
use crate::tally::{PortTallies, Tally};
use dv_eval::Scope;
use dv_trace::model::output_name;
use dv_tree::Tree;
use std::alloc::{AllocError, Global};

/// A component whose rows are made.
#[derive(Clone, Copy)]
struct Subject<'t, 'c> {
    path: Path,
    scope: &'t Scope,
    count: &'c ComponentCount,
}

/// The section of a kind, with titles if it is shown in columns. Without quantiles, the sections of
/// quantiles and bins have no other rows.
pub(crate) fn section_of<'t>(
    alloc: Global,
    tree: &'t Tree<'t>,
    counts: &Counts<'t>,
    kind: Kind,
    form: Form,
) -> Result<Section<'t>, AllocError> {
    let mut section = Section::new(alloc, tree, kind);
    if let Form::Columns = form {
        section.push_titles();
    }
    match kind.named() {
        Named::ByName => section.add_outputs(counts),
        Named::ByComponent | Named::ByBoth => section.add_components(counts),
    }
    if section.is_cut {
        Err(AllocError)
    } else {
        Ok(section)
    }
}

impl<'t> Section<'t> {
    fn add_components(&mut self, counts: &Counts<'t>) {
        let tree = self.tree;
        for (component, count) in counts.components.iter().enumerate() {
            if let Some(count) = count
                && component < tree.component_count()
            {
                let subject = Subject {
                    path: self.push_path(tree.path(component)),
                    scope: tree.scope(component),
                    count,
                };
                self.add_component(subject, counts.span.ticks());
            }
        }
    }

    // Adds the rows of a component. `all` is the number of ticks that count. No name of a phase has
    // a colon.
    fn add_component(&mut self, of: Subject<'t, '_>, all: u64) {
        if let Kind::Component = self.kind {
            return self.push(of.path, "", &transition_cells(of.count));
        }
        for (index, name) in names_in(self.kind, of.scope).iter().enumerate() {
            self.add_named(of, self.tree.name(*name), index, all);
        }
        if matches!(self.kind, Kind::Phase) && of.count.fault.is_some() {
            self.push(of.path, "fault:", &phase_cells(1, of.count.faulted, all));
        }
    }

    // Adds the rows of what a component has at an index: a phase, a variable or a port. The ticks
    // after a fault do not count for a variable.
    fn add_named(&mut self, of: Subject<'t, '_>, name: &'t str, index: usize, all: u64) {
        let (path, count) = (of.path, of.count);
        match self.kind {
            Kind::Phase => {
                if let Some(phase) = count.phases.get(index) {
                    self.push(path, name, &phase_cells(phase.visits, phase.ticks, all));
                }
            }
            Kind::Variable => {
                if let Some(variable) = count.variables.get(index) {
                    let ticks = all.saturating_sub(count.faulted);
                    self.push(path, name, &held_cells(variable.held, ticks));
                }
            }
            Kind::Port => {
                if let Some(port) = count.ports.get(index) {
                    self.push(path, name, &port_cells(*port));
                }
            }
            Kind::Quantiles(sample) | Kind::Bins(sample) => {
                if let Some(tally) = tally_at(count, sample, index) {
                    self.add_sample(path, name, tally);
                }
            }
            Kind::Component | Kind::Output | Kind::Flow => {}
        }
    }

    fn add_outputs(&mut self, counts: &Counts<'t>) {
        for (port, count) in counts.outputs.iter().enumerate() {
            let name = output_name(self.tree, port);
            self.add_output(name, *count, counts.tallies.get(port), counts.span.ticks());
        }
        if let Some(flow) = &counts.flow
            && matches!(self.kind, Kind::Flow)
        {
            self.push(Path::ROOT, flow.name, &flow_cells(flow));
        }
    }

    // Adds the rows of an output of the root.
    fn add_output(
        &mut self,
        name: &'t str,
        count: OutputCount,
        tallies: Option<&PortTallies>,
        ticks: u64,
    ) {
        match (self.kind, tallies) {
            (Kind::Output, _) => self.push(Path::ROOT, name, &output_cells(count, ticks)),
            (Kind::Quantiles(sample) | Kind::Bins(sample), Some(tallies)) => {
                self.add_sample(Path::ROOT, name, sample.tally_of(tallies));
            }
            (Kind::Quantiles(_) | Kind::Bins(_), None)
            | (Kind::Component | Kind::Phase | Kind::Variable | Kind::Port | Kind::Flow, _) => {}
        }
    }

    // Adds the row of the quantiles of a sample, or a row for each bin.
    fn add_sample(&mut self, component: Path, name: &'t str, tally: &Tally) {
        if let Kind::Quantiles(_) = self.kind {
            return self.push(component, name, &quantile_cells(tally));
        }
        for bin in Histogram::of(tally).bins() {
            let cells = [
                Cell::Number(bin.least),
                Cell::Number(bin.greatest),
                Cell::count(bin.count),
            ];
            self.push(component, name, &cells);
        }
    }
}

// The numbers of the names in a component that have rows of a kind.
fn names_in(kind: Kind, scope: &Scope) -> &[u32] {
    match kind {
        Kind::Component | Kind::Output | Kind::Flow => &[],
        Kind::Phase => scope.phases(),
        Kind::Variable
        | Kind::Quantiles(Sample::VariableValues)
        | Kind::Bins(Sample::VariableValues) => scope.variables(),
        Kind::Port | Kind::Quantiles(_) | Kind::Bins(_) => scope.outputs(),
    }
}

// The tally of a variable or a port at an index, if there are tallies.
fn tally_at(count: &ComponentCount, sample: Sample, index: usize) -> Option<&Tally> {
    match sample {
        Sample::VariableValues => count.variables.get(index)?.values.as_ref(),
        Sample::PortValues | Sample::PortGaps | Sample::OutputValues | Sample::OutputGaps => {
            Some(sample.tally_of(count.tallies.get(index)?))
        }
    }
}

fn transition_cells(count: &ComponentCount) -> [Cell; 5] {
    let (fault, time) = match count.fault {
        Some((fault, time)) => (Cell::Fault(fault), Cell::Time(time)),
        None => (Cell::Nothing, Cell::Nothing),
    };
    [
        Cell::count(count.transitions.internal),
        Cell::count(count.transitions.external),
        Cell::count(count.transitions.confluent),
        fault,
        time,
    ]
}

fn phase_cells(visits: u64, ticks: u64, all: u64) -> [Cell; 3] {
    [
        Cell::count(visits),
        Cell::count(ticks),
        Cell::ratio(Some(i128::from(ticks)), all),
    ]
}

fn extreme_cells(extremes: Option<Extremes>) -> (Cell, Cell) {
    match extremes {
        Some(Extremes { least, greatest }) => {
            (Cell::number(Some(least)), Cell::number(Some(greatest)))
        }
        None => (Cell::Nothing, Cell::Nothing),
    }
}

fn held_cells(held: Summary, ticks: u64) -> [Cell; 3] {
    let (least, greatest) = extreme_cells(held.extremes);
    [least, greatest, Cell::ratio(held.sum, ticks)]
}

fn port_cells(port: PortCount) -> [Cell; 6] {
    let (least, greatest) = extreme_cells(port.sent.extremes);
    [
        Cell::count(port.instants),
        Cell::count(port.values),
        least,
        greatest,
        Cell::sum(port.sent.sum),
        Cell::ratio(port.sent.sum, port.values),
    ]
}

// The cells of an output of the root. `ticks` is the number of ticks that count.
fn output_cells(count: OutputCount, ticks: u64) -> [Cell; 10] {
    let [instants, values, least, greatest, sum, mean] = port_cells(count.port);
    let [gap_least, gap_mean, gap_greatest] = gap_cells(count.instants, count.port.instants);
    [
        instants,
        values,
        least,
        greatest,
        sum,
        mean,
        Cell::ratio(Some(i128::from(count.port.values)), ticks),
        gap_least,
        gap_mean,
        gap_greatest,
    ]
}

// The least, the mean and the greatest number of ticks from one instant to the next. Their sum is
// the number of ticks from the first instant to the last.
fn gap_cells(instants: Option<Instants>, count: u64) -> [Cell; 3] {
    match instants {
        Some(
            Instants {
                first,
                last,
                gaps: Some((least, greatest)),
            },
        ) => {
            let sum = i128::from(last.saturating_sub(first));
            [
                Cell::count(least),
                Cell::ratio(Some(sum), count.saturating_sub(1)),
                Cell::count(greatest),
            ]
        }
        Some(_) | None => [Cell::Nothing; 3],
    }
}

// The number of values, the least one, the quantiles, the greatest one, the mean, the deviation,
// and the margin of the mean.
fn quantile_cells(tally: &Tally) -> [Cell; 11] {
    [
        Cell::count(tally.count),
        Cell::number(tally.least()),
        Cell::number(tally.quantile(25)),
        Cell::number(tally.quantile(50)),
        Cell::number(tally.quantile(75)),
        Cell::number(tally.quantile(90)),
        Cell::number(tally.quantile(99)),
        Cell::number(tally.greatest()),
        Cell::ratio(tally.sum(), tally.count),
        deviation_of(tally),
        tally.batches.margin(),
    ]
}

// The number of pairs, the times, and the numbers of values that are paired with none.
fn flow_cells(flow: &Flow<'_>) -> [Cell; 13] {
    let [
        count,
        least,
        first,
        half,
        third,
        tenth,
        hundredth,
        greatest,
        mean,
        deviation,
        margin,
    ] = quantile_cells(&flow.times);
    [
        count,
        least,
        mean,
        deviation,
        margin,
        greatest,
        first,
        half,
        third,
        tenth,
        hundredth,
        Cell::count(flow.inside()),
        Cell::count(flow.unmatched),
    ]
}
