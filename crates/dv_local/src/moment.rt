//! What the reactions of an instant are computed from.

use dv_bag::{Fault, Sent};
use dv_react::Instant;
use dv_share::{Indexed, Tables};

/// What the reactions of an instant are computed from, beside the components and what arrives: the
/// tables, the instant, what was emitted, and, as `nothing`, what the other components sent.
#[derive(Clone, Copy)]
pub(crate) struct Moment<'a, A> {
    pub tables: &'a Tables<A>,
    pub instant: &'a Instant,
    pub emitted: &'a [Indexed<Result<Sent, Fault>>],
    pub nothing: &'a Sent,
}
