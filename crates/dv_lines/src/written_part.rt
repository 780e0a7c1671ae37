//! A part of a trace with its entries as lines.

ghost use Rattle.std.specs.Prelude.{◌≡◌, ◌++◌, [], ◌∷◌, IfOk, OnOk};
ghost use Rattle.dv_bag.specs.declared.entry.Entry.{Entry as MeantEntry};
ghost use Rattle.dv_text.specs.Names.{tree_names};
ghost use Rattle.dv_lines.specs.Entries.{line_of};

use crate::stamp::Stamp;
use crate::tree_words::TreeWords;
use crate::written_record::WrittenRecords;
use dv_bag::{Entry, Part, What};
use dv_time::Time;
use dv_written::{OfJob, WrittenPart};
use std::alloc::{AllocError, Global};

/// Makes the lines of the entries of a part, by the words of a tree.
///
/// # Errors
///
/// No memory for the entries and the lines.
pub(crate) fn written_part<N: OfJob>(
    alloc: Global,
    part: &Part,
    words: &TreeWords,
) -> Result<WrittenPart<N>, AllocError>
    requires { (e : MeantEntry) → line_of (tree_names words.now) e ≡ N.line e }
    ensures { IfOk result (λ written. written ≡ part.now) }
{
    let mut written = written_entries(alloc, part, words)?;
    for line in part.outer() {
        written.push_outer(line.clone()?)?;
    }
    Ok(written)
}

// Makes the lines of the entries of a part, without its output lines.
fn written_entries<N: OfJob>(
    alloc: Global,
    part: &Part,
    words: &TreeWords,
) -> Result<WrittenPart<N>, AllocError>
    requires { (e : MeantEntry) → line_of (tree_names words.now) e ≡ N.line e }
    ensures { IfOk result (λ written.
        written ≡ record { entries = part.now.entries; outer = [] }) }
{
    let records: WrittenRecords<N> = words.records();
    let mut written = WrittenPart::new(alloc);
    let mut stamp = Stamp::of(Time::ZERO);
    for entry in part.entries() {
        push_entry(&records, &mut written, &mut stamp, entry)?;
    }
    Ok(written)
}

// Appends an entry with its line.
fn push_entry<N: OfJob>(
    records: &WrittenRecords<N>,
    written: &mut WrittenPart<N>,
    stamp: &mut Stamp,
    entry: &Entry,
) -> Result<(), AllocError>
    ensures { OnOk result (written.new
        ≡ record written.old { entries = written.old.entries ++ entry.now ∷ [] }) }
{
    let (time, component, sent) = (entry.time, entry.component, &entry.sent);
    match &entry.what {
        What::Transition { kind, state } => {
            records.push_moved(written, stamp, time, component, *kind, state, sent)
        }
        What::Fault(fault) => records.push_faulted(written, stamp, time, component, *fault, sent),
    }
}
