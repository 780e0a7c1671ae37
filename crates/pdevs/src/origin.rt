//! How the program was built. `build` adds a line that says this to the end of the program's file.

use std::io::ErrorKind;
use std::rt::Files;
use std::{fs, io};

/// The file of the program that runs.
const PROGRAM: &str = "/proc/self/exe";

/// The beginning of the line.
const BUILT: &str = "built of ";

/// The answer if the file has no such line, or can't be read.
const UNKNOWN: &str = "how it was built is not known";

/// The commit and the kit of which the program was built, and whether it is proved.
///
/// # Errors
///
/// An allocation was refused.
pub fn origin<R: AllocGlobal + Files>(rt: &R) -> io::Result<String> {
    let program = match fs::read(rt, PROGRAM) {
        Ok(program) => program,
        Err(error) if matches!(error.kind(), ErrorKind::OutOfMemory) => return Err(error),
        Err(_) => Vec::new(rt.alloc()),
    };
    let line = line_in(&program).unwrap_or(UNKNOWN);
    Ok(String::from_str(rt.alloc(), line)?)
}

/// The last line of a program's file, if it says how the program was built.
fn line_in(program: &[u8]) -> Option<&str> {
    let line = program.rsplit(|byte| *byte == b'\n').next()?;
    let line = str::from_utf8(line).ok()?;
    if line.starts_with(BUILT) {
        Some(line)
    } else {
        None
    }
}
