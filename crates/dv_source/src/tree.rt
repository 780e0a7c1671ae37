//! Trees of texts: models with their items, in the order of the text.

use dv_syntax::{Declaration, Hold, Link, Name, Part, Phases, Rule, Start, Version};

/// An item of an atomic model.
#[derive(Drop)]
pub enum SourceItem {
    /// A port, a variable, a flag, a bag or a queue.
    Declares(Declaration),
    /// Phases.
    Lists(Phases),
    /// The start.
    Starts(Start),
    /// The hold of a phase.
    Holds(Hold),
    /// A rule of a phase.
    Rules(Rule),
}

/// `atomic name { .. }`
#[derive(Drop)]
pub struct SourceAtomic {
    /// The name of the model.
    pub name: Name,
    /// Its items, in the order of the text.
    pub items: Vec<SourceItem>,
}

/// An item of a coupled model.
#[derive(Drop)]
pub enum SourceCoupledItem {
    /// An input port.
    Inputs(Name),
    /// An output port.
    Outputs(Name),
    /// A part.
    Contains(Part),
    /// A link.
    Couples(Link),
}

/// `coupled name { .. }`
#[derive(Drop)]
pub struct SourceCoupled {
    /// The name of the model.
    pub name: Name,
    /// Its items, in the order of the text.
    pub items: Vec<SourceCoupledItem>,
}

/// A model.
#[derive(Drop)]
pub enum SourceModel {
    /// An atomic model.
    Atomic(SourceAtomic),
    /// A coupled model.
    Coupled(SourceCoupled),
}

/// A whole text: its header, its models in order, and the name of the root.
#[derive(Drop)]
pub struct SourceFile {
    /// The version that the header says; none if there is no header.
    pub header: Option<Version>,
    /// The models, in the order of the text.
    pub models: Vec<SourceModel>,
    /// The name of the root.
    pub root: Name,
}
