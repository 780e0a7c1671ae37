//! Options of the numbers, and the model that they are of.

use crate::flow::FlowOptions;
use dv_trace::{Chosen, End, Excerpt};
use dv_tree::Tree;
use std::alloc::Global;

/// How the numbers are written.
#[derive(Clone, Copy)]
pub enum Form {
    /// In aligned columns, a section for each kind of row.
    Columns,
    /// As comma-separated values, a line for each value: kind, component, name, measure, value.
    Csv,
}

/// What is counted of a trace, and how it is written.
#[derive(Clone, Copy)]
pub struct StatsOptions<'a> {
    /// Whether the trace has to have an end. One without an end counts up to the tick of its last
    /// line.
    pub end: End,
    /// How the numbers are written.
    pub form: Form,
    /// The ticks and the components that count.
    pub excerpt: Excerpt<'a>,
    /// The ports between which times are taken, if they are given.
    pub flow: Option<FlowOptions<'a>>,
    /// Whether quantiles and histograms are written, too. They take memory for each distinct value
    /// that a port sent.
    pub quantiles: bool,
}

/// The model of a trace, and what is counted of it.
#[derive(Clone, Copy)]
pub(crate) struct Counted<'t> {
    pub(crate) alloc: Global,
    pub(crate) tree: &'t Tree<'t>,
    pub(crate) chosen: Chosen,
    pub(crate) options: StatsOptions<'t>,
}
