//! The components of a run at one instant: what they send, what leaves, and how they react.

ghost use Rattle.std.specs.Prelude.{◌≡◌, ℕ, ◌≤◌, ◌<◌, [], ◌∷◌, ◌++◌, length, map, slice_index_or, slice_set, vec_len, IfOk, OnOk};
ghost use Rattle.dv_bag.specs.Part.{joined};
ghost use Rattle.dv_check.specs.Limits.{greatest_names};
ghost use Rattle.dv_devs.specs.Behaviour.{emission, reaction};
ghost use Rattle.dv_devs.specs.Network.{components_after, entries_by, entry_of, outer_from, part_of_instant};
ghost use Rattle.dv_react.specs.Components.{AreWaitsOfRun, IsWaitOfRun, component_of, components_of, rank_of};
ghost use Rattle.dv_react.specs.Outcomes.{event_of, fault_of, happened_in, outcome_of, sent_of};
ghost use Rattle.dv_syntax.specs.Trees.{atomic_of, file_of};
ghost use Rattle.dv_tree.specs.Instances.{instances};
ghost use Rattle.dv_plain.specs.Outputs.{outputs_at, reactions_at};
ghost use Rattle.dv_plain.specs.Source.{behaviour_of, network_of};

use crate::atom::Atom;
use dv_bag::{Bags, Entry, Fault, Part, Sent, What};
use dv_react::{Happened, Instant, Kept, Running, commit_outer};
use dv_tree::Tree;
use dv_tree::laws::each_component_receives;
use std::alloc::{AllocError, Global};
use std::mem;

/// What the output functions of all components give at an instant, by component.
#[derive(Drop)]
pub struct Outputs {
    /// What each component sends: nothing if it is not imminent or its output function has a fault.
    pub sent: Vec<Sent>,
    /// The fault of each component's output function, if it has one.
    pub faults: Vec<Option<Fault>>,
}

impl Outputs {
    fn push(&mut self, alloc: Global, output: Result<Sent, Fault>) -> Result<(), AllocError>
        ensures sent { OnOk result
            (self.new.sent.items ≡ self.old.sent.items ++ sent_of output ∷ []) }
        ensures faults { OnOk result
            (self.new.faults.items ≡ self.old.faults.items ++ fault_of output ∷ []) }
    {
        match output {
            Ok(sent) => {
                self.sent.push(sent)?;
                self.faults.push(None)?;
            }
            Err(fault) => {
                self.sent.push(Sent::empty(alloc, 0))?;
                self.faults.push(Some(fault))?;
            }
        }
        Ok(())
    }

    // Takes out what a component sent, and leaves nothing in its place.
    fn take(&mut self, alloc: Global, k: usize) -> Sent
        requires { k < vec_len self.old.sent }
        ensures result { result ≡ slice_index_or self.old.sent.items k [] }
        ensures sent { self.new.sent.items ≡ slice_set self.old.sent.items k [] }
        ensures faults { self.new.faults.items ≡ self.old.faults.items }
    {
        mem::replace(&mut self.sent[k], Sent::empty(alloc, 0))
    }
}

// What the output functions of all components give at an instant.
fn emit_all(
    alloc: Global,
    tree: &Tree,
    instant: &Instant,
    components: &[Running],
) -> Result<Outputs, AllocError>
    requires matched { length components.now ≡ length (instances (file_of tree.now.file)) }
    requires waits { AreWaitsOfRun instant.now.limit components.now }
    ensures sent { IfOk result (λ e. e.sent.items ≡ map sent_of
        (outputs_at instant.now (file_of tree.now.file) components.now)) }
    ensures faults { IfOk result (λ e. e.faults.items ≡ map fault_of
        (outputs_at instant.now (file_of tree.now.file) components.now)) }
{
    let mut work = alloc;
    let mut emitted = Outputs {
        sent: Vec::new(alloc),
        faults: Vec::new(alloc),
    };
    for (k, component) in components.iter().enumerate() {
        let output = component.emit(alloc, &Atom::of(tree, k), &mut work, instant)?;
        emitted.push(alloc, output)?;
    }
    Ok(emitted)
}

// Lets a component react at an instant to what it receives, and returns what happens to it. `fault`
// is that of its output function, if it had one.
fn react_atom(
    alloc: Global,
    atom: &Atom,
    instant: &Instant,
    component: &mut Running,
    received: &Bags,
    fault: Option<Fault>,
) -> Result<Option<What>, AllocError>
    requires wait { IsWaitOfRun instant.now.limit component.old.wait }
    requires fault { fault_of (emission (behaviour_of (atomic_of atom.now.model.now))
        (rank_of instant.now) (component_of instant.now.limit component.old)) ≡ fault }
    ensures reaction { IfOk result (λ what.
        reaction instant.now.limit (behaviour_of (atomic_of atom.now.model.now))
        (rank_of instant.now) (component_of instant.now.limit component.old) received.now
        ≡ record {
          event = event_of what (sent_of (emission (behaviour_of (atomic_of atom.now.model.now))
              (rank_of instant.now) (component_of instant.now.limit component.old)));
          component = component_of instant.now.limit component.new;
        }) }
    ensures wait { IfOk result (λ what. IsWaitOfRun instant.now.limit component.new.wait) }
{
    let mut work = alloc;
    let mut before = Kept::new(alloc);
    before.copy_from(component)?;
    let happened = dv_react::react_component(
        atom,
        &mut work,
        instant,
        component,
        &mut before,
        received,
        fault,
    )?;
    what_of(component, happened)
}

// What happened to a component, with a copy of its state after that.
fn what_of(component: &Running, happened: Option<Happened>) -> Result<Option<What>, AllocError>
    ensures { IfOk result (λ what. what ≡ happened_in (outcome_of component.now happened)) }
{
    match happened {
        None => Ok(None),
        Some(Happened::Fault(fault)) => Ok(Some(What::Fault(fault))),
        Some(Happened::Transition(kind)) => {
            let state = component.state.clone()?;
            Ok(Some(What::Transition { kind, state }))
        }
    }
}

// Adds the entry of a component, if something happened to it.
fn push_event(
    instant: &Instant,
    component: u32,
    happened: Option<What>,
    sent: Sent,
    trace: &mut Part,
) -> Result<(), AllocError>
    ensures { OnOk result (trace.new ≡ record trace.old {
      entries = trace.old.entries
          ++ entry_of instant.now.limit (rank_of instant.now) component (event_of happened sent);
    }) }
{
    if let Some(what) = happened {
        trace.push_entry(Entry {
            time: instant.time,
            component,
            what,
            sent,
        })?;
    }
    Ok(())
}

// Lets each component react at an instant, and adds its entry.
fn react_all(
    alloc: Global,
    tree: &Tree,
    instant: &Instant,
    received: &[Bags],
    emitted: &mut Outputs,
    components: &mut [Running],
    trace: &mut Part,
) -> Result<(), AllocError>
    requires matched { length components.old ≡ length (instances (file_of tree.now.file)) }
    requires waits { AreWaitsOfRun instant.now.limit components.old }
    requires received { length received.now ≡ length (instances (file_of tree.now.file)) }
    requires sent { emitted.old.sent.items ≡ map sent_of
        (outputs_at instant.now (file_of tree.now.file) components.old) }
    requires faults { emitted.old.faults.items ≡ map fault_of
        (outputs_at instant.now (file_of tree.now.file) components.old) }
    ensures components { OnOk result (components_of instant.now.limit components.new
        ≡ map (λ r. r.component)
        (reactions_at instant.now (file_of tree.now.file) components.old received.now)) }
    ensures entries { OnOk result (trace.new ≡ record trace.old {
      entries = trace.old.entries ++ entries_by instant.now.limit (rank_of instant.now)
          (network_of instant.now.limit (file_of tree.now.file)).numbers
          (reactions_at instant.now (file_of tree.now.file) components.old received.now);
    }) }
    ensures waits { OnOk result (AreWaitsOfRun instant.now.limit components.new) }
{
    for k in 0..tree.component_count() {
        let atom = Atom::of(tree, k);
        let fault = emitted.faults[k];
        let happened = react_atom(
            alloc,
            &atom,
            instant,
            &mut components[k],
            &received[k],
            fault,
        )?;
        push_event(instant, k as u32, happened, emitted.take(alloc, k), trace)?;
    }
    Ok(())
}

/// Runs one instant, with these inputs from outside: the imminent components emit, what they send
/// is routed, each component reacts, and what leaves the model is added to the trace.
///
/// # Errors
///
/// No memory for the bags or the entries. The components and the trace may have changed.
pub fn run_instant(
    alloc: Global,
    tree: &Tree,
    instant: &Instant,
    input: &Bags,
    components: &mut [Running],
    trace: &mut Part,
) -> Result<(), AllocError>
    requires matched { length components.old ≡ length (instances (file_of tree.now.file)) }
    requires waits { AreWaitsOfRun instant.now.limit components.old }
    ensures components { OnOk result (components_of instant.now.limit components.new
        ≡ components_after instant.now.limit (network_of instant.now.limit (file_of tree.now.file))
        (rank_of instant.now) input.now (components_of instant.now.limit components.old)) }
    ensures trace { OnOk result (trace.new ≡ joined trace.old
        (part_of_instant instant.now.limit (network_of instant.now.limit (file_of tree.now.file))
        (rank_of instant.now) input.now (components_of instant.now.limit components.old))) }
    ensures waits { OnOk result (AreWaitsOfRun instant.now.limit components.new) }
{
    // For the prover alone.
    each_component_receives();
    let mut emitted = emit_all(alloc, tree, instant, components)?;
    let routed = tree.route(alloc, &emitted.sent, input)?;
    react_all(
        alloc,
        tree,
        instant,
        &routed.received,
        &mut emitted,
        components,
        trace,
    )?;
    commit_outer(instant, &routed.leaving, trace)?;
    Ok(())
}
