//! Writes the end of a trace.

ghost use Rattle.std.specs.Prelude.{◌≡◌, if◌then◌else◌, IfOk, IfErr, OnOk};
ghost use Rattle.std.specs.Io.KnownBytes.{Appends};
ghost use Rattle.dv_text.specs.Texts.{ending_text, partial_ending};
ghost use Rattle.dv_text.specs.declared.writing.Ending.TheVariants as text_end;
ghost use Rattle.dv_job.specs.Written.{IsUnwritten, end_text, ended_at};
ghost use Rattle.dv_job.specs.declared.ended.JobEnded.TheVariants.{Faulted, Partial, Whole};

use crate::ended::{JobEnded, JobError};
use crate::faults::whole_ending;
use dv_stream::{Ran, RunEnded, Why};
use dv_text::{Ending, write_ending};
use std::alloc::Global;
use std::io::Write;

/// Writes the last lines of the trace of a run, which say whether it is whole, and if not, to which
/// clocks the processes came. Returns how the run ended.
///
/// # Errors
///
/// `Write` and `Memory`: the writer holds a beginning of these lines that is not all of them; after
/// `Memory` perhaps nothing.
pub fn write_end<W: Write>(
    alloc: Global,
    ran: &Ran,
    horizon: u64,
    writer: &mut W,
) -> Result<JobEnded, JobError>
    ensures ending { IfOk result (λ ended. ended ≡ ended_at ran.now.ended ran.now.written.faulted) }
    ensures text { OnOk result (Appends (W.contents writer.old) (W.contents writer.new)
        (end_text ran.now.ended horizon ran.now.clocks.items)) }
    ensures error { IfErr result (λ e. IsUnwritten e
        (end_text ran.now.ended horizon ran.now.clocks.items)
        (W.contents writer.old) (W.contents writer.new)) }
{
    match ran.ended {
        RunEnded::Whole => write_whole(alloc, ran, horizon, writer),
        RunEnded::Cut(why) => write_cut(alloc, ran, why, writer),
    }
}

// Writes that the trace is whole.
fn write_whole<W: Write>(
    alloc: Global,
    ran: &Ran,
    horizon: u64,
    writer: &mut W,
) -> Result<JobEnded, JobError>
    ensures ending { IfOk result (λ ended. ended ≡ (if ran.now.written.faulted then Faulted else Whole)) }
    ensures text { OnOk result (Appends (W.contents writer.old) (W.contents writer.new)
        (ending_text (text_end.Whole horizon))) }
    ensures error { IfErr result (λ e. IsUnwritten e (ending_text (text_end.Whole horizon))
        (W.contents writer.old) (W.contents writer.new)) }
{
    write_ending(alloc, &Ending::Whole(horizon), writer)?;
    Ok(whole_ending(ran.written.faulted))
}

// Writes to which clocks the processes came, in a run that was cut for this reason.
fn write_cut<W: Write>(
    alloc: Global,
    ran: &Ran,
    why: Why,
    writer: &mut W,
) -> Result<JobEnded, JobError>
    ensures ending { IfOk result (λ ended. ended ≡ Partial why) }
    ensures text { OnOk result (Appends (W.contents writer.old) (W.contents writer.new)
        (partial_ending ran.now.clocks.items)) }
    ensures error { IfErr result (λ e. IsUnwritten e (partial_ending ran.now.clocks.items)
        (W.contents writer.old) (W.contents writer.new)) }
{
    let clocks = Vec::from_slice(alloc, ran.clocks.as_slice())?;
    write_ending(alloc, &Ending::Partial(clocks), writer)?;
    Ok(JobEnded::Partial(why))
}
