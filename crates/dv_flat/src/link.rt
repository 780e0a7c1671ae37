//! Links between ports, without the tree.

/// An input or output port of a component, by the component's number and the port's index.
#[derive(Clone, Copy, PartialEq, Eq)]
pub struct ComponentPort {
    /// The number of the component.
    pub component: u32,
    /// The index of the port, among the input ports or the output ports of its model.
    pub port: u32,
}

/// A link from one port to another. Of each value that is sent, `copies` copies arrive: one for
/// each way.
#[derive(Clone, Copy, PartialEq, Eq)]
pub struct Link<From, To> {
    /// Where values are sent, or come in from outside.
    pub from: From,
    /// Where they arrive, or leave the model.
    pub to: To,
    /// The number of copies of each value that arrive.
    pub copies: u64,
}

/// From an output port of a component to an input port of another.
pub type DirectLink = Link<ComponentPort, ComponentPort>;

/// From an input port of the root, by its index, to an input port of a component.
pub type EntryLink = Link<u32, ComponentPort>;

/// From an output port of a component to an output port of the root, by its index.
pub type ExitLink = Link<ComponentPort, u32>;
