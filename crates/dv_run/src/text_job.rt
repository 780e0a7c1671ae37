//! A text with its inputs and its partition.

ghost use Rattle.std.specs.Prelude.{◌≤◌};
ghost use Rattle.dv_time.specs.Limits.{greatest_limit, greatest_tick};

use dv_bag::Inputs;
use dv_core::PlannedJob;
use dv_partition::Groups;
use dv_tree::Tree;

/// A text with its inputs, to be run in processes. Horizon and limit are in their ranges.
#[derive(Clone, Copy)]
pub struct TextJob<'j, 'c> {
    /// The tree of the text.
    pub tree: &'j Tree<'c>,
    /// The inputs of the root.
    pub inputs: &'j Inputs,
    /// Which process has which component.
    pub groups: &'j Groups,
    /// The last tick of the run.
    pub horizon: u64,
    /// The limit on the microsteps of a tick.
    pub limit: u32,
    pub ghost horizon_in_range: { horizon ≤ greatest_tick },
    pub ghost limit_in_range: { limit ≤ greatest_limit },
}

impl PlannedJob for TextJob<'_, '_> {
    ghost use Rattle.dv_run.specs.Texts.{text_job};

    ghost means = { text_job };

    fn horizon(&self) -> u64 {
        self.horizon
    }
}
