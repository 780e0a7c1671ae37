//! The output lines of an instant.

ghost use Rattle.std.specs.Prelude.{◌≡◌, ◌++◌, ◌^◌, ◌≤◌, OnOk, length};
ghost use Rattle.dv_devs.specs.Network.{outer_from};
ghost use Rattle.dv_react.specs.Committed.{HasGrown};
ghost use Rattle.dv_react.specs.Components.{rank_of};

use crate::instant::Instant;
use dv_bag::{Bags, Part};
use dv_record::push_lines;
use std::alloc::AllocError;

/// Adds what leaves the model at an instant to a part: an output line for each output port of the
/// root with values. Only these ports are looked at.
///
/// # Errors
///
/// No memory for the lines. Some of them may have been added.
pub fn commit_outer(
    instant: &Instant,
    leaving: &Bags,
    committed: &mut Part,
) -> Result<(), AllocError>
    requires { length leaving.now ≤ 2 ^ 32 }
    ensures outer { OnOk result (committed.new.outer ≡ committed.old.outer
        ++ outer_from instant.now.limit (rank_of instant.now) 0 leaving.now) }
    ensures grown { HasGrown committed.old.outer committed.new.outer }
    ensures entries { committed.new.entries ≡ committed.old.entries }
{
    push_lines(committed, instant.time, leaving)
}
