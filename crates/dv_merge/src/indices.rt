//! What of a part is before a time.

ghost use Rattle.std.specs.Prelude.{◌≡◌, false, not, filter};
ghost use Rattle.std.specs.List.{AllPairs};
ghost use Rattle.dv_bag.specs.declared.entry.Entry.{Entry};
ghost use Rattle.dv_bag.specs.declared.entry.Outer.{Outer};
ghost use Rattle.dv_time.specs.Time.{is_before};
ghost use Rattle.dv_merge.specs.Cuts.{IsCut};

use dv_bag::Outer;
use dv_time::Time;
use dv_written::{OfJob, WrittenEntry};

/// The number of entries before a time. The entries have to be in order by time.
pub(crate) fn entries_before<N: OfJob>(entries: &[WrittenEntry<N>], time: Time) -> usize
    requires { AllPairs (λ (a b : Entry). is_before b.time a.time ≡ false) entries.now }
    ensures { IsCut (λ (e : Entry). is_before e.time time) result entries.now }
{
    entries.partition_point(|entry| entry.time().is_before(time))
}

// The number of output lines before a time. The lines have to be in order by time.
fn lines_before(lines: &[Outer], time: Time) -> usize
    requires { AllPairs (λ (a b : Outer). is_before b.time a.time ≡ false) lines.now }
    ensures { IsCut (λ (o : Outer). is_before o.time time) result lines.now }
{
    lines.partition_point(|line| line.time.is_before(time))
}

/// The output lines from one time on and before another. The lines have to be in order by time.
pub(crate) fn lines_between(lines: &[Outer], from: Time, upto: Time) -> &[Outer]
    requires { AllPairs (λ (a b : Outer). is_before b.time a.time ≡ false) lines.now }
    ensures { result.now ≡ filter (λ (o : Outer). not (is_before o.time from))
        (filter (λ (o : Outer). is_before o.time upto) lines.now) }
{
    let early = &lines[..lines_before(lines, upto)];
    &early[lines_before(early, from)..]
}
