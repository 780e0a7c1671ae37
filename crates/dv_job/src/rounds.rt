//! How many rounds a run has.

ghost use Rattle.std.specs.Prelude.{◌≡◌, ◌≤◌, ◌^◌};
ghost use Rattle.dv_time.specs.Time.{end_of};
ghost use Rattle.dv_time.specs.Limits.{greatest_limit, greatest_tick};
ghost use Rattle.dv_job.specs.Running.{granted};

use crate::options::{Driver, Options};

/// How many rounds a run has at most: those of its driver, or else as many as are always enough.
pub fn granted(options: &Options) -> u64
    ensures { result ≡ granted options.now }
{
    match options.driver {
        Driver::Rounds(Some(most)) => most,
        Driver::Rounds(None) | Driver::Workers(_) => {
            times_before_end(options.horizon, options.limit) + 1
        }
    }
}

// How many times a run has before its end.
fn times_before_end(horizon: u64, limit: u32) -> u64
    requires horizon { horizon ≤ greatest_tick }
    requires limit { limit ≤ greatest_limit }
    ensures exact { result ≡ end_of limit horizon }
    ensures few { result ≤ 2 ^ 60 }
{
    (horizon + 1) * (u64::from(limit) + 1)
}
