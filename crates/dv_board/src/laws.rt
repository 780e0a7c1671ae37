//! Laws of what is written from mark to mark.

ghost use Rattle.std.specs.Prelude.{◌≡◌, List};
ghost use Rattle.dv_bag.specs.Part.{nothing};
ghost use Rattle.dv_conservative.specs.Flat.{whole};
ghost use Rattle.dv_conservative.specs.Process.{first_time};
ghost use Rattle.dv_conservative.specs.World.{Job};
ghost use Rattle.dv_devs.specs.Network.{trace_before};
ghost use Rattle.dv_time.specs.Time.{rank};
ghost use Rattle.dv_time.specs.declared.time.Time.{Time};
ghost use Rattle.dv_board.specs.Marks.{RiseSince, last_mark, written_by};

/// For marks that rise from 0.0, the pieces of the trace between one mark and the next, joined, are
/// the trace before the last mark. So what a backlog lends by `known` before each `let_go`, one
/// after the other, is a beginning of the trace.
pub fn pieces_in_turn_begin_the_trace()
    ensures { (job : Job) (marks : List Time) → RiseSince job first_time marks
        → written_by job nothing first_time marks
        ≡ trace_before job.limit (whole job.flat) job.outside
        (rank job.limit (last_mark first_time marks)) }
{}
