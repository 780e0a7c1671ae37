//! What happens to a component at an instant.

use dv_bag::{Fault, Kind};

/// What happened to a component at an instant.
#[derive(Clone, Copy)]
pub enum Happened {
    /// A transition of this kind.
    Transition(Kind),
    /// A fault. The component is quiet from then on.
    Fault(Fault),
}
