//! No components: only their response answers what a process asks.

ghost use Rattle.std.specs.Prelude.{◌≡◌, [], OnErr, OnOk};

use dv_bag::Response;
use dv_proc::{Event, Frame, Local};
use dv_record::PartRecord;
use dv_time::Time;
use std::alloc::AllocError;

/// No components, with a response all the same, and the numbers of the one link that leads here and
/// of the one that leads away.
#[derive(Drop)]
pub struct Silent {
    /// The microstep limit and the last tick of the run.
    pub frame: Frame,
    /// The response, in ticks.
    pub ticks: u32,
    /// The number of the link that leads here.
    pub incoming: u32,
    /// The number of the link that leads away.
    pub outgoing: u32,
    /// The record, which is told nothing.
    pub record: PartRecord,
}

impl Local for Silent {
    ghost use Rattle.std.specs.Prelude.{[]};
    ghost use Rattle.dv_record.specs.Told.{no_text};
    ghost use Rattle.test_ring.specs.Ring.{view_of};

    type Work = ();

    type Record = PartRecord;

    ghost view = { view_of };

    ghost settled = { view_of };

    ghost sent = { λ n. [] };

    ghost handed = { λ n. no_text };

    ghost visits = { λ n. 0 };

    fn frame(&self) -> Frame {
        self.frame
    }

    fn response(&self) -> Response {
        Response::Ticks(u64::from(self.ticks))
    }

    fn is_port(&self, _component: u32, _port: u32) -> bool {
        false
    }

    fn keep(&mut self, _events: &[Event]) -> Result<(), AllocError> {
        Ok(())
    }

    fn next(&self) -> Option<Time> {
        None
    }

    fn first_input(&self, _from: Time) -> Option<Time> {
        None
    }

    fn react(&mut self, _work: &mut (), _now: Time) -> Result<(), AllocError> {
        Ok(())
    }

    fn emit(&mut self, _work: &mut (), _now: Time) -> Result<(), AllocError> {
        Ok(())
    }

    fn send(&self, _index: usize, _now: Time, _into: &mut Vec<Event>) -> Result<(), AllocError> {
        Ok(())
    }

    fn visits(&self) -> u64 {
        0
    }

    fn record(&self) -> &PartRecord {
        &self.record
    }

    fn into_record(self) -> PartRecord {
        self.record
    }

    fn settle(&mut self) {}

    fn roll_back(&mut self) {}

    fn let_go(&mut self) {}
}
