//! A model in processes, compared with its plain run.

use dv_bag::{Entry, Inputs, Part};
use dv_core::Step;
use dv_job::{Options, run_steps};
use dv_partition::Partition;
use dv_plain::resultant_run;
use dv_plan::Stepped;
use dv_time::Time;
use dv_tree::Tree;
use std::alloc::{AllocError, Global};

/// The last tick of each run, and its microstep limit.
const HORIZON: u64 = 40;

const LIMIT: u32 = 5;

/// The process of each component. Each of the processes has one at least.
#[derive(Drop)]
pub struct Owners {
    /// The number of the process of each component.
    pub of_components: Vec<u32>,
    /// How many processes there are.
    pub processes: u32,
}

impl Owners {
    /// A process for each component.
    pub fn one_each(alloc: Global, components: usize) -> Result<Self, AllocError> {
        let processes = u32::try_from(components).unwrap_or(0);
        let mut of_components = Vec::new(alloc);
        for process in 0..processes {
            of_components.push(process)?;
        }
        Ok(Owners {
            of_components,
            processes,
        })
    }

    fn is_owner(&self, process: u32, component: usize) -> bool {
        self.of_components.get(component) == Some(&process)
    }
}

/// A model whose components have processes, and what its plain run commits.
#[derive(Drop)]
pub struct Division<'t> {
    text: &'t str,
    owners: Owners,
    groups: String,
    plain: Part,
}

impl<'t> Division<'t> {
    /// The model of a text, which has this tree.
    pub fn new(
        alloc: Global,
        text: &'t str,
        tree: &Tree,
        owners: Owners,
    ) -> Result<Self, AllocError> {
        let groups = groups_text(alloc, tree, &owners)?;
        let plain = resultant_run(alloc, tree, &Inputs::new(alloc), HORIZON, LIMIT)?;
        Ok(Division {
            text,
            owners,
            groups,
            plain,
        })
    }

    /// The number of processes.
    pub fn processes(&self) -> u32 {
        self.owners.processes
    }

    /// What a list of steps leaves, on links of a capacity; nothing where the steps cannot be made.
    pub fn stepped(&self, alloc: Global, steps: &[Step], capacity: u32) -> Option<Stepped> {
        let options = Options::new(HORIZON, LIMIT, None, None, capacity)?;
        let groups = Partition::Json(self.groups.as_bytes());
        run_steps(alloc, self.text.as_bytes(), &[], groups, &options, steps).ok()
    }

    /// Whether each process has committed its components' entries of the plain run before its
    /// clock.
    pub fn agrees(&self, stepped: &Stepped) -> bool {
        let mut process: u32 = 0;
        for part in &stepped.parts {
            let Some(clock) = stepped.clocks.get(process as usize) else {
                return false;
            };
            if !self.is_part(process, *clock, part) {
                return false;
            }
            process = process.saturating_add(1);
        }
        process == self.owners.processes
    }

    /// Whether a part has the entries of a process before its clock.
    fn is_part(&self, process: u32, clock: Time, part: &Part) -> bool {
        let mut rest = part.entries();
        for entry in self.plain.entries() {
            if self.is_entry_of(entry, process, clock) && rest.next() != Some(entry) {
                return false;
            }
        }
        rest.next().is_none()
    }

    /// Whether an entry is of a process, and before a clock.
    fn is_entry_of(&self, entry: &Entry, process: u32, clock: Time) -> bool {
        entry.time.is_before(clock) && self.owners.is_owner(process, entry.component as usize)
    }
}

/// A partition as text.
fn groups_text(alloc: Global, tree: &Tree, owners: &Owners) -> Result<String, AllocError> {
    let mut text = String::from_str(alloc, "{\"processes\":[")?;
    for process in 0..owners.processes {
        if process > 0 {
            text.push(',')?;
        }
        push_group(&mut text, tree, owners, process)?;
    }
    text.push_str("]}")?;
    Ok(text)
}

/// The paths of the components of a process.
fn push_group(
    text: &mut String,
    tree: &Tree,
    owners: &Owners,
    process: u32,
) -> Result<(), AllocError> {
    let mut mark = '[';
    for component in 0..tree.component_count() {
        if owners.is_owner(process, component) {
            text.push(mark)?;
            text.push('"')?;
            tree.push_path(text, tree.path(component))?;
            text.push('"')?;
            mark = ',';
        }
    }
    text.push(']')
}
