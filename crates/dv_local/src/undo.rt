//! How changes are taken back.

ghost use Rattle.std.specs.Prelude.{◌≡◌, ◌<◌, ◌≤◌, ◌+◌, ◌-◌, ◌^◌, [], IfOk, length};
ghost use Rattle.dv_time.specs.declared.time.Time.{Time as TimeOfCode};
ghost use Rattle.dv_local.specs.Arrivals.{arrivals_at};
ghost use Rattle.dv_local.specs.Undoing.{AreWithin, arrivals_but, time_of_wait, undone, waits_of};

use crate::components::Components;
use crate::former::Former;
use crate::inbox::Inbox;
use dv_agenda::Agenda;
use dv_react::{Running, Wait};
use dv_time::Time;
use std::alloc::{AllocError, Global};

/// What is needed to take back the changes since all was settled. What was told since then is known
/// to the record. The count of visits is never taken back.
#[derive(Drop)]
pub struct Undo {
    /// The components that changed, as they were.
    pub before: Former,
    /// The committed time, whose arrivals are removed when all is settled again.
    pub taken: Option<Time>,
}

/// The time that a component waits for: its next time.
pub(crate) fn time_of(wait: Wait) -> Option<Time>
    ensures { result ≡ time_of_wait wait }
{
    match wait {
        Wait::Until(time) => Some(time),
        Wait::Forever | Wait::Quiet => None,
    }
}

/// Removes what arrives at a time, if there is one.
#[inline]
pub(crate) fn let_go(inbox: &mut Inbox, taken: Option<Time>)
    ensures { (t : TimeOfCode) → arrivals_at t inbox.new ≡ arrivals_but taken t inbox.old }
{
    if let Some(time) = taken {
        inbox.remove(time);
    }
}

/// Puts all components in the log back, the last one first. No visit is counted or taken back. It
/// needs no memory.
pub(crate) fn put_all_back(components: &mut Components, agenda: &mut Agenda, before: &mut Former)
    requires within { AreWithin (length components.old.running) before.old }
    requires agenda { agenda.old ≡ waits_of components.old.running }
    ensures components { components.new.running
        ≡ undone before.old components.old.running }
    ensures visits { components.new.visits ≡ components.old.visits }
    ensures agenda { agenda.new ≡ waits_of components.new.running }
    ensures empty { before.new ≡ [] }
{
    while let Some(last) = before.pop() {
        agenda.set(last.index, time_of(last.what.wait));
        components.put_back(last.index, last.what);
    }
}

/// The agenda of components: the next time of each.
///
/// # Errors
///
/// No memory for a wait and 641 bits of each component, and for 641 waits.
pub fn agenda_of(alloc: Global, running: &[Running]) -> Result<Agenda, AllocError>
    requires { length running.now < 2 ^ 32 }
    ensures { IfOk result (λ agenda. agenda ≡ waits_of running.now) }
{
    let mut agenda = Agenda::new(alloc, running.len() as u32)?;
    for (index, component) in running.iter().enumerate() {
        agenda.set(index as u32, time_of(component.wait));
    }
    Ok(agenda)
}
