//! Sections of rows.

use crate::cell::Cell;
use crate::tally::{PortTallies, Tally};
use dv_tree::Tree;
use std::alloc::{AllocError, Global};

/// What the rows of a section are about.
#[derive(Clone, Copy)]
pub(crate) enum Kind {
    Component,
    Phase,
    Variable,
    Port,
    Output,
    Flow,
    Quantiles(Sample),
    Bins(Sample),
}

/// The numbers of which there are quantiles and a histogram: values, those of a variable as often
/// as there are ticks at which it holds them, or ticks from one instant to the next (gaps).
#[derive(Clone, Copy)]
pub(crate) enum Sample {
    VariableValues,
    PortValues,
    PortGaps,
    OutputValues,
    OutputGaps,
}

/// The columns of names in a section.
#[derive(Clone, Copy)]
pub(crate) enum Named {
    ByComponent,
    ByName,
    ByBoth,
}

impl Sample {
    fn word(self) -> &'static str {
        match self {
            Sample::VariableValues => "variable values",
            Sample::PortValues => "port values",
            Sample::PortGaps => "port gaps",
            Sample::OutputValues => "output values",
            Sample::OutputGaps => "output gaps",
        }
    }

    fn named(self) -> Named {
        match self {
            Sample::VariableValues | Sample::PortValues | Sample::PortGaps => Named::ByBoth,
            Sample::OutputValues | Sample::OutputGaps => Named::ByName,
        }
    }

    /// The one of a port's tallies that has this sample. A variable has no gaps.
    pub(crate) fn tally_of(self, tallies: &PortTallies) -> &Tally {
        match self {
            Sample::VariableValues | Sample::PortValues | Sample::OutputValues => &tallies.values,
            Sample::PortGaps | Sample::OutputGaps => &tallies.gaps,
        }
    }
}

impl Kind {
    /// All kinds, in the order of their sections.
    pub(crate) const ALL: [Kind; 16] = [
        Kind::Component,
        Kind::Phase,
        Kind::Variable,
        Kind::Port,
        Kind::Output,
        Kind::Flow,
        Kind::Quantiles(Sample::VariableValues),
        Kind::Bins(Sample::VariableValues),
        Kind::Quantiles(Sample::PortValues),
        Kind::Bins(Sample::PortValues),
        Kind::Quantiles(Sample::PortGaps),
        Kind::Bins(Sample::PortGaps),
        Kind::Quantiles(Sample::OutputValues),
        Kind::Bins(Sample::OutputValues),
        Kind::Quantiles(Sample::OutputGaps),
        Kind::Bins(Sample::OutputGaps),
    ];

    /// The name of the kind, which is the title of the column of names.
    pub(crate) fn word(self) -> &'static str {
        match self {
            Kind::Component => "component",
            Kind::Phase => "phase",
            Kind::Variable => "variable",
            Kind::Port => "port",
            Kind::Output => "output",
            Kind::Flow => "flow",
            Kind::Quantiles(sample) | Kind::Bins(sample) => sample.word(),
        }
    }

    /// The columns of names in the section.
    pub(crate) fn named(self) -> Named {
        match self {
            Kind::Component => Named::ByComponent,
            Kind::Output | Kind::Flow => Named::ByName,
            Kind::Phase | Kind::Variable | Kind::Port => Named::ByBoth,
            Kind::Quantiles(sample) | Kind::Bins(sample) => sample.named(),
        }
    }

    /// The titles of the other columns.
    pub(crate) fn measures(self) -> &'static [&'static str] {
        match self {
            Kind::Component => &COMPONENT,
            Kind::Phase => &PHASE,
            Kind::Variable => &VARIABLE,
            Kind::Port => &PORT,
            Kind::Output => &OUTPUT,
            Kind::Flow => &FLOW,
            Kind::Quantiles(_) => &QUANTILES,
            Kind::Bins(_) => &BINS,
        }
    }
}

const COMPONENT: [&str; 5] = ["internal", "external", "confluent", "fault", "fault_time"];

const PHASE: [&str; 3] = ["visits", "ticks", "share"];

const VARIABLE: [&str; 3] = ["least", "greatest", "mean"];

const PORT: [&str; 6] = ["instants", "values", "least", "greatest", "sum", "mean"];

const OUTPUT: [&str; 10] = [
    "instants",
    "values",
    "least",
    "greatest",
    "sum",
    "mean",
    "rate",
    "gap_least",
    "gap_mean",
    "gap_greatest",
];

const FLOW: [&str; 13] = [
    "pairs",
    "least",
    "mean",
    "deviation",
    "margin",
    "greatest",
    "0.25",
    "0.5",
    "0.75",
    "0.9",
    "0.99",
    "inside",
    "unmatched",
];

// The quantiles are named by fractions of one.
const QUANTILES: [&str; 11] = [
    "count",
    "least",
    "0.25",
    "0.5",
    "0.75",
    "0.9",
    "0.99",
    "greatest",
    "mean",
    "deviation",
    "margin",
];

const BINS: [&str; 3] = ["from", "to", "count"];

/// The most values of a row.
pub(crate) const MOST_CELLS: usize = 13;

/// Where a path is in the text of all paths.
#[derive(Clone, Copy)]
pub(crate) struct Path {
    start: usize,
    end: usize,
}

impl Path {
    /// The path of the root, which is empty.
    pub(crate) const ROOT: Path = Path { start: 0, end: 0 };
}

/// A row of a section.
#[derive(Drop)]
pub(crate) struct Row<'t> {
    /// The path of the component; empty for outputs of the root.
    pub(crate) component: Path,
    /// The name of the phase, the variable or the port; empty for the component itself.
    pub(crate) name: &'t str,
    /// The values, in the order of the titles.
    pub(crate) cells: Vec<Cell>,
}

/// Rows of one kind, of the components of a tree.
#[derive(Drop)]
pub(crate) struct Section<'t> {
    alloc: Global,
    pub(crate) tree: &'t Tree<'t>,
    pub(crate) kind: Kind,
    pub(crate) rows: Vec<Row<'t>>,
    // The paths of all components, one behind the other.
    paths: String,
    /// Whether the memory for a row or a path was refused, so that rows are lacking.
    pub(crate) is_cut: bool,
}

impl<'t> Section<'t> {
    /// A section without rows.
    pub(crate) fn new(alloc: Global, tree: &'t Tree<'t>, kind: Kind) -> Self {
        Section {
            alloc,
            tree,
            kind,
            rows: Vec::new(alloc),
            paths: String::new(alloc),
            is_cut: false,
        }
    }

    /// Adds the row of the titles.
    pub(crate) fn push_titles(&mut self) {
        self.is_cut = self.paths.push_str("component").is_err();
        let component = Path {
            start: 0,
            end: self.paths.len(),
        };
        let mut titles = [Cell::Nothing; MOST_CELLS];
        let measures = self.kind.measures();
        for (title, measure) in titles.iter_mut().zip(measures) {
            *title = Cell::Word(*measure);
        }
        let titles = titles.get(..measures.len()).unwrap_or(&[]);
        self.push(component, self.kind.word(), titles);
    }

    /// Adds a path, which is given by the numbers of its names, to those of the section.
    pub(crate) fn push_path(&mut self, path: &[u32]) -> Path {
        let start = self.paths.len();
        self.is_cut = self.is_cut || self.tree.push_path(&mut self.paths, path).is_err();
        Path {
            start,
            end: self.paths.len(),
        }
    }

    /// The text of a path.
    pub(crate) fn path_text(&self, path: Path) -> &str {
        self.paths.get(path.start..path.end).unwrap_or("")
    }

    /// Adds a row, if no row is lacking.
    pub(crate) fn push(&mut self, component: Path, name: &'t str, cells: &[Cell]) {
        self.is_cut = self.is_cut || self.push_row(component, name, cells).is_err();
    }

    fn push_row(
        &mut self,
        component: Path,
        name: &'t str,
        cells: &[Cell],
    ) -> Result<(), AllocError> {
        self.rows.push(Row {
            component,
            name,
            cells: Vec::from_slice(self.alloc, cells)?,
        })?;
        Ok(())
    }
}
