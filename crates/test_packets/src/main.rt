//! A test program: it gives packets to a process of a model, true ones and others, and compares its
//! answers, what it commits and how often it visits components with tables.
//!
//! The expected answers are in the tables of `table`, beside the packets. The process of `dv_proc`
//! with the components of `dv_local` is tested, as `dv_run` makes it of a text.
//!
//! The first word names a file with a model of two components, the second word one with a clock and
//! a thousand cells.
#![tactic(auto)]

/// Cases, and whether a process does as they say.
mod cases;
/// A process of a text, as its run begins.
mod process;
/// The cases.
mod table;

use crate::cases::Case;
use std::io;
use std::process::ExitCode;
use std::rt::Files;

fn main(rt: HostRuntime) -> io::Result<ExitCode> {
    let words: Vec<String> = std::env::args(&rt)?.skip(1).collect(rt.alloc())?;
    let (Some(two), Some(cells)) = (words.first(), words.get(1)) else {
        return Ok(ExitCode::FAILURE);
    };
    let two = do_all_hold(&rt, two.as_str(), &table::CASES)?;
    let cells = do_all_hold(&rt, cells.as_str(), &table::CELLS)?;
    Ok(if two && cells {
        ExitCode::SUCCESS
    } else {
        ExitCode::FAILURE
    })
}

/// Tells of each case whether a process of the model in a file does as it says, and answers whether
/// all do.
fn do_all_hold<R: AllocGlobal + Files + Print>(
    rt: &R,
    name: &str,
    cases: &[Case],
) -> io::Result<bool> {
    let text = std::fs::read_to_string(rt, name)?;
    let mut do_all_hold = true;
    for case in cases {
        if process::does_hold(rt.alloc(), text.as_str(), case)? {
            println!(rt; "{}: {} packets", case.name, case.rows.len())?;
        } else {
            println!(rt; "{}: differs", case.name)?;
            do_all_hold = false;
        }
    }
    Ok(do_all_hold)
}
