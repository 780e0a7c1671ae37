//! The implementation of `Local`.

use crate::state::LocalState;
use dv_bag::Response;
use dv_proc::{Event, Frame, Local, LocalHandsOver};
use dv_react::Atomic;
use dv_record::Record;
use dv_time::Time;
use dv_written::{HandsOver, OfJob, WrittenPart};
use std::alloc::AllocError;
use std::marker::Model;

/// The components of a process, in a state that keeps its invariant.
#[derive(Drop)]
pub struct LocalRun<A: Atomic, R: Record> {
    state: LocalState<A, R>,
}

impl<A: Atomic, R: Record> Model for LocalRun<A, R> {
    ghost use Rattle.std.specs.Coded.{codes};
    ghost use Rattle.dv_local.specs.contracts.inbox.Inbox as inbox;
    ghost use Rattle.dv_local.specs.declared.state.LocalState.{LocalState};
    ghost use Rattle.dv_local.specs.States.{IsKept};

    ghost Value = { LocalState A R };

    ghost coded = { Prim.hlevel (codes, inbox.the_row.coded) };

    ghost view = { λ r. r.state };

    ghost invariant = { λ r. IsKept A.behaviour A.fits A.comes r.state };
}

impl<A: Atomic, R: Record> LocalRun<A, R> {
    ghost use Rattle.std.specs.Prelude.{◌≡◌};
    ghost use Rattle.dv_local.specs.States.{IsKept};

    /// Takes a state that keeps the invariant.
    pub fn new(state: LocalState<A, R>) -> Self
        requires { IsKept A.behaviour A.fits A.comes state }
        ensures { result ≡ state }
    {
        LocalRun { state }
    }
}

impl<A: Atomic + Drop, R: Record> Local for LocalRun<A, R> {
    ghost use Rattle.dv_local.specs.States.{sent_of, settled_by, view_by};

    type Work = A::Work;

    type Record = R;

    ghost view = { λ r. view_by A.behaviour R.told r };

    ghost settled = { λ r. settled_by A.behaviour R.settled r };

    ghost sent = { λ r. sent_of r };

    ghost handed = { λ r. R.handed r.record };

    ghost visits = { λ r. r.components.visits };

    fn frame(&self) -> Frame {
        self.state.frame()
    }

    fn response(&self) -> Response {
        self.state.response()
    }

    fn is_port(&self, component: u32, port: u32) -> bool {
        self.state.is_port(component, port)
    }

    fn keep(&mut self, events: &[Event]) -> Result<(), AllocError> {
        self.state.keep(events)
    }

    fn next(&self) -> Option<Time> {
        self.state.next()
    }

    #[inline(always)]
    fn first_input(&self, from: Time) -> Option<Time> {
        self.state.first_input(from)
    }

    fn react(&mut self, work: &mut A::Work, now: Time) -> Result<(), AllocError> {
        self.state.react_components(work, now)
    }

    fn emit(&mut self, work: &mut A::Work, now: Time) -> Result<(), AllocError> {
        self.state.emit(work, now)
    }

    fn send(&self, index: usize, now: Time, into: &mut Vec<Event>) -> Result<(), AllocError> {
        self.state.send(index, now, into)
    }

    fn visits(&self) -> u64 {
        self.state.components.visits()
    }

    fn record(&self) -> &R {
        &self.state.record
    }

    fn into_record(self) -> R {
        self.state.into_record()
    }

    fn settle(&mut self) {
        self.state.settle();
    }

    fn roll_back(&mut self) {
        self.state.roll_back();
    }

    fn let_go(&mut self) {
        self.state.let_go();
    }
}

impl<N: OfJob, A: Atomic + Drop, R: HandsOver<N>> LocalHandsOver<N> for LocalRun<A, R> {
    fn rest_length(&self) -> usize {
        self.state.rest_length::<N>()
    }

    fn hand_over(&mut self) -> WrittenPart<N> {
        self.state.hand_over()
    }
}
