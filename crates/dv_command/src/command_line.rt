//! From the words of a command line to a request.

ghost use Rattle.std.specs.Prelude.{IfErr, IfOk, map, string_bytes};
ghost use Rattle.dv_command.specs.Asked.{AnswersNothing, Asks};

use crate::asked::asked;
use crate::request::{Request, RequestError, Usage};
use crate::unasked::Unasked;
use crate::usage::usage_text;
use std::alloc::Global;

/// What the words ask for. The first word is the program's name.
///
/// # Errors
///
/// `Usage`: the words are no command, or ask for help; it has the text to print, which `clap`
/// makes. `Memory`: an allocation was refused.
pub fn request_of(alloc: Global, words: &[String]) -> Result<Request, RequestError>
    ensures asked { IfOk result (Asks (map string_bytes words.now)) }
    ensures nothing { IfErr result (AnswersNothing (Asks (map string_bytes words.now))) }
{
    match asked(alloc, words) {
        Ok(request) => Ok(request),
        Err(Unasked::Nothing) => {
            let text = usage_text(alloc, words)?;
            Err(RequestError::Usage(Usage { text }))
        }
        Err(Unasked::Memory) => Err(RequestError::Memory),
    }
}
