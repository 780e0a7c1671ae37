//! Agendas and inboxes: next times, and arrivals that are not committed yet.

use crate::compare::same;
use dv_agenda::Agenda;
use dv_local::Inbox;
use dv_proc::Event;
use dv_time::Time;
use std::alloc::AllocError;
use std::test::Fail;

fn at(tick: u64, micro: u32) -> Time {
    Time { tick, micro }
}

fn event(tick: u64, value: i64) -> Event {
    Event {
        time: at(tick, 0),
        component: 2,
        port: 1,
        value,
        copies: 1,
    }
}

#[test]
fn an_agenda_knows_who_is_first(rt: HostRuntime) -> Result<(), Fail> {
    let mut agenda = Agenda::new(rt.alloc(), 5)?;
    same!(rt; agenda.first(), None);
    same!(rt; agenda.len(), 5);
    agenda.set(4, Some(at(3, 1)));
    agenda.set(1, Some(at(3, 0)));
    agenda.set(0, Some(at(3, 1)));
    same!(rt; agenda.first(), Some(at(3, 0)));
    agenda.set(1, None);
    same!(rt; agenda.first(), Some(at(3, 1)));
    let mut due = Vec::new(rt.alloc());
    agenda.due(at(3, 1), &mut due)?;
    same!(rt; due.as_slice(), [0u32, 4].as_slice());
    same!(rt; agenda.wait_of(4), Some(at(3, 1)));
    same!(rt; agenda.wait_of(3), None);
    Ok(())
}

#[test]
fn an_agenda_goes_on_and_back(rt: HostRuntime) -> Result<(), Fail> {
    let mut agenda = Agenda::new(rt.alloc(), 20)?;
    let mut due = Vec::new(rt.alloc());
    agenda.set(0, Some(at(100, 0)));
    agenda.set(1, Some(at(5_000, 2)));
    agenda.set(2, Some(at(1_000_000_000_000, 0)));
    agenda.due(at(100, 0), &mut due)?;
    agenda.set(0, Some(at(5_000, 1)));
    same!(rt; agenda.first(), Some(at(5_000, 1)));
    agenda.due(at(5_000, 1), &mut due)?;
    agenda.set(0, None);
    same!(rt; agenda.first(), Some(at(5_000, 2)));
    agenda.set(1, Some(at(5, 1)));
    same!(rt; agenda.first(), Some(at(5, 1)));
    agenda.due(at(5, 1), &mut due)?;
    agenda.set(1, None);
    same!(rt; agenda.first(), Some(at(1_000_000_000_000, 0)));
    agenda.due(at(1_000_000_000_000, 0), &mut due)?;
    same!(rt; due.as_slice(), [0u32, 0, 1, 2].as_slice());
    Ok(())
}

#[test]
fn an_agenda_of_one_component_or_none(rt: HostRuntime) -> Result<(), Fail> {
    let none = Agenda::new(rt.alloc(), 0)?;
    same!(rt; none.first(), None);
    let mut one = Agenda::new(rt.alloc(), 1)?;
    one.set(0, Some(at(7, 0)));
    same!(rt; one.first(), Some(at(7, 0)));
    let mut due = Vec::new(rt.alloc());
    one.due(at(7, 0), &mut due)?;
    same!(rt; due.as_slice(), [0u32].as_slice());
    Ok(())
}

#[test]
fn an_inbox_keeps_what_comes_by_time(rt: HostRuntime) -> Result<(), Fail> {
    let mut inbox = Inbox::new(rt.alloc());
    same!(rt; inbox.first(), None);
    inbox.add_all(&[event(5, 50), event(9, 90)])?;
    inbox.add_all(&[event(4, 40), event(5, 51)])?;
    same!(rt; inbox.first(), Some(at(4, 0)));
    inbox.remove(at(4, 0));
    same!(rt; inbox.first(), Some(at(5, 0)));
    same!(rt; inbox.at(at(5, 0)).len(), 2);
    let second = inbox.at(at(5, 0)).get(1).map(|delivery| delivery.value);
    same!(rt; second, Some(51));
    same!(rt; inbox.at(at(6, 0)).len(), 0);
    Ok(())
}

#[test]
fn a_packet_that_finds_no_memory_changes_nothing(rt: HostRuntime) -> Result<(), Fail> {
    let mut inbox = Inbox::new(rt.alloc());
    if inbox.add_all(&[event(5, 50)]).is_err() {
        return Ok(());
    }
    let outcome: Result<(), AllocError> = inbox.add_all(&[
        event(4, 40),
        event(5, 51),
        event(6, 60),
    ]);
    if outcome.is_err() {
        same!(rt; inbox.first(), Some(at(5, 0)));
        same!(rt; inbox.at(at(4, 0)).len(), 0);
        same!(rt; inbox.at(at(5, 0)).len(), 1);
        same!(rt; inbox.at(at(6, 0)).len(), 0);
    } else {
        same!(rt; inbox.at(at(5, 0)).len(), 2);
    }
    Ok(())
}
