//! The lines of an ending.

ghost use Rattle.std.specs.Prelude.{◌≡◌, ◌++◌, OnOk, string_bytes};
ghost use Rattle.dv_text.specs.Texts.{clock_text, clocks_text, ending_text};

use crate::writing::Ending;
use dv_time::Time;
use std::alloc::AllocError;

/// Adds the lines of an ending to a text.
pub fn push_end(line: &mut String, ending: &Ending) -> Result<(), AllocError>
    ensures { OnOk result (string_bytes line.new ≡
        string_bytes line.old ++ ending_text ending.now) }
{
    match ending {
        Ending::Whole(horizon) => writeln!(line, "whole {horizon}"),
        Ending::Partial(clocks) => {
            push_clocks(line, clocks.as_slice())?;
            writeln!(line, "partial")
        }
    }
}

// Adds a line for each clock. The clocks are in the order of the processes.
fn push_clocks(line: &mut String, clocks: &[Time]) -> Result<(), AllocError>
    ensures { OnOk result (string_bytes line.new ≡
        string_bytes line.old ++ clocks_text 0 clocks.now) }
{
    for (process, clock) in clocks.iter().enumerate() {
        push_clock(line, process, *clock)?;
    }
    Ok(())
}

fn push_clock(line: &mut String, process: usize, clock: Time) -> Result<(), AllocError>
    ensures { OnOk result (string_bytes line.new ≡
        string_bytes line.old ++ clock_text process clock) }
{
    writeln!(line, "process {process} clock {clock}")
}
