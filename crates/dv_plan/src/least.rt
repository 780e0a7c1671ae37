//! The least clock of processes.

ghost use Rattle.std.specs.Prelude.{◌≡◌, ◌<◌, length};
ghost use Rattle.dv_plan.specs.Clocks.{least_time};

use dv_time::Time;

/// The least of the clocks of a list that is not empty.
pub fn least_clock(clocks: &[Time]) -> Time
    requires { 0 < length clocks.now }
    ensures { result ≡ least_time clocks.now }
{
    let mut least = clocks[0];
    for clock in &clocks[1..] {
        if clock.is_before(least) {
            least = *clock;
        }
    }
    least
}
