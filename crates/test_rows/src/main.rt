//! A test program: it runs rows. A row is a text with a command and the expected result.
//!
//! The expected results were worked out by hand from the meaning of the language, and never taken
//! from a run. A row with a run is also run plainly, in several processes, and by workers, on links
//! for one packet and for more, and all of them have to print the same: `pdevs` has no plain run
//! and no option for the links. The rows test the calls of `dv_job`.
//!
//! Each word names a file of rows. `data/README.md` says how they are written, and which there are.
#![tactic(auto)]

/// What comes of a text by a command.
mod outcome;
/// A file of rows.
mod row;
/// Lines of a file of rows, as the text that they stand for.
mod text;

use std::io;
use std::process::ExitCode;

fn main(rt: HostRuntime) -> io::Result<ExitCode> {
    let words: Vec<String> = std::env::args(&rt)?.skip(1).collect(rt.alloc())?;
    let mut do_all_hold = true;
    for word in &words {
        let do_hold = row::do_hold(&rt, word.as_str())?;
        do_all_hold = do_all_hold && do_hold;
    }
    Ok(if do_all_hold {
        ExitCode::SUCCESS
    } else {
        ExitCode::FAILURE
    })
}
