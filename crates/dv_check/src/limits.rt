//! The limits on a model text.

/// The greatest number of names of one kind: ports, variables with flags and collections, or phases
/// of an atomic model; ports or parts of a coupled one.
pub const GREATEST_NAMES: usize = 4096;

/// How deep coupled models may be nested, the root counted.
pub const GREATEST_DEPTH: usize = 16;

/// The greatest number of components: of atomic models in the whole tree of the root.
pub const GREATEST_COMPONENTS: usize = 4096;

/// The greatest number of instances: atomic and coupled models in the whole tree, the root counted.
pub const GREATEST_INSTANCES: usize = 8192;
