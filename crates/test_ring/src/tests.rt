//! Null messages between two processes, step by step and in rounds.

use crate::ring::ring;
use dv_core::{Ended, Reply, Step};
use dv_proc::Frame;
use dv_time::Time;
use std::test::Fail;

// To tick 10, with one microstep more at each tick: 22 times before the end.
fn frame() -> Frame {
    Frame {
        limit: 1,
        horizon: 10,
    }
}

#[test]
fn as_many_rounds_as_times_are_enough(rt: HostRuntime) -> Result<(), Fail> {
    let mut world = ring(rt.alloc(), frame(), 0, 1)?;
    assert!(rt; world.serial(&mut (), 23) == Ended::Whole);
    let (_records, clocks) = world.finish(rt.alloc())?;
    let end = Time { tick: 11, micro: 0 };
    assert!(rt; clocks.as_slice() == [end, end].as_slice());
    Ok(())
}

#[test]
fn a_response_saves_rounds(rt: HostRuntime) -> Result<(), Fail> {
    let mut world = ring(rt.alloc(), frame(), 5, 1)?;
    assert!(rt; world.serial(&mut (), 2) == Ended::Stalled);
    assert!(rt; world.serial(&mut (), 3) == Ended::Whole);
    Ok(())
}

#[test]
fn packets_go_from_process_to_process(rt: HostRuntime) -> Result<(), Fail> {
    let mut world = ring(rt.alloc(), frame(), 3, 1)?;
    let steps = [
        Step::Put(0),
        Step::Turn(0),
        Step::Take(0),
        Step::Put(0),
        Step::Put(0),
        Step::Take(0),
        Step::Take(0),
        Step::Turn(1),
        Step::Turn(2),
        Step::Put(2),
        Step::Take(2),
        Step::Stop(2),
        Step::Stop(1),
        Step::Turn(1),
        Step::Put(1),
        Step::Take(0),
        Step::Turn(0),
    ];
    let replies = world.run(rt.alloc(), &mut (), &steps)?;
    let expected = [
        Reply::Empty,
        Reply::Done,
        Reply::Empty,
        Reply::Done,
        Reply::Empty,
        Reply::Done,
        Reply::Empty,
        Reply::Done,
        Reply::Refused,
        Reply::Refused,
        Reply::Refused,
        Reply::Refused,
        Reply::Done,
        Reply::Stopped,
        Reply::Stopped,
        Reply::Stopped,
        Reply::Done,
    ];
    assert!(rt; replies.as_slice() == expected.as_slice());
    // The window of the one packet that was taken ends at 3.0, and nothing is due before.
    assert!(rt; world.process(1).clock() == Time { tick: 3, micro: 0 });
    Ok(())
}

#[test]
fn a_stop_comes_before_a_full_link(rt: HostRuntime) -> Result<(), Fail> {
    let mut world = ring(rt.alloc(), frame(), 3, 0)?;
    assert!(rt; world.step(&mut (), Step::Turn(0)) == Reply::Done);
    assert!(rt; world.step(&mut (), Step::Put(0)) == Reply::Full);
    assert!(rt; world.step(&mut (), Step::Stop(0)) == Reply::Done);
    assert!(rt; world.step(&mut (), Step::Put(0)) == Reply::Stopped);
    Ok(())
}
