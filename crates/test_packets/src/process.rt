//! A process of a text at the beginning of its run.

ghost use Rattle.std.specs.Prelude.{◌≡◌, ◌-◌, ◌<◌, ℕ, [], None, Some, IfOk, IfSome, length, slice_get};
ghost use Rattle.std.specs.List.{AllByRecursion};
ghost use Rattle.dv_check.specs.Refusals.{refusal_of};
ghost use Rattle.dv_check.specs.Writable.{IsWritable};
ghost use Rattle.dv_coded.specs.declared.lent.Lent.{Lent};
ghost use Rattle.dv_coded.specs.Lent.{behaviour_of_lent, lent_takes};
ghost use Rattle.dv_core.specs.Conservative.{IsConservative};
ghost use Rattle.dv_flat.specs.Limit.{link_refusal};
ghost use Rattle.dv_local.specs.declared.share.Share.{Share};
ghost use Rattle.dv_local.specs.States.{settled_by, view_by};
ghost use Rattle.dv_plan.specs.Beginning.{CanBegin};
ghost use Rattle.dv_record.specs.Told.{settled_of, told_of};
ghost use Rattle.dv_run.specs.Texts.{AreLinksOf};
ghost use Rattle.dv_syntax.specs.Trees.{file_of};

use crate::cases;
use crate::cases::Case;
use dv_bag::Inputs;
use dv_check::laws::files_of_texts_are_writable;
use dv_check::{Checked, check};
use dv_coded::{Bench, Components, Lent, components_of};
use dv_expand::expand;
use dv_flat::{LinkLists, count_links, flatten};
use dv_gen::laws::accepted_files_are_compilable;
use dv_lex::{LoadError, tokens};
use dv_local::{LocalRun, begin};
use dv_parser::parse;
use dv_partition::Groups;
use dv_plan::Plan;
use dv_proc::Process;
use dv_record::PartRecord;
use dv_run::{TextJob, plan_text};
use dv_tree::Tree;
use law_sound::shares::processes_of_texts_start_sound;
use std::alloc::{AllocError, Global};

/// The last tick of the run, and its microstep limit.
const HORIZON: u64 = 4;

const LIMIT: u32 = 3;

/// How many processes a model has.
const PROCESSES: usize = 2;

/// Whether the process of all components of a text but the first does as a case says. A text that
/// is refused has none.
pub fn does_hold(alloc: Global, text: &str, case: &Case) -> Result<bool, AllocError> {
    match checked(alloc, text) {
        Ok(checked) => does_hold_of_checked(alloc, &checked, case),
        Err(_) => Ok(false),
    }
}

// Whether that process of a checked text does as a case says.
fn does_hold_of_checked(alloc: Global, checked: &Checked, case: &Case) -> Result<bool, AllocError>
    requires writable { IsWritable (file_of checked.now.file) }
    requires accepted { refusal_of (file_of checked.now.file) ≡ None }
{
    let tree = Tree::of(alloc, checked)?;
    match count_links(alloc, &tree) {
        Ok(_count) => does_hold_of_tree(alloc, &tree, case),
        Err(_) => Ok(false),
    }
}

// The checked file of a text.
fn checked(alloc: Global, text: &str) -> Result<Checked, LoadError>
    ensures writable { IfOk result (λ c. IsWritable (file_of c.file)) }
    ensures accepted { IfOk result (λ c. refusal_of (file_of c.file) ≡ None) }
{
    // The file of a text could be written down.
    files_of_texts_are_writable();
    let found = tokens(alloc, text.as_bytes())?;
    let source = parse(alloc, &found.tokens, text.len() as u32)?;
    let file = expand(alloc, source)?;
    check(alloc, file, found.names)
}

// Whether that process of an accepted text does as a case says. The first component has a process,
// and all others have another.
fn does_hold_of_tree(alloc: Global, tree: &Tree, case: &Case) -> Result<bool, AllocError>
    requires writable { IsWritable (file_of tree.now.file) }
    requires accepted { refusal_of (file_of tree.now.file) ≡ None }
    requires few { link_refusal (file_of tree.now.file) ≡ None }
{
    let links = flatten(alloc, tree)?;
    let owners = owners_of(alloc, tree.component_count())?;
    let groups = Groups::new(alloc, PROCESSES, owners)?;
    let inputs = Inputs::new(alloc);
    let job = TextJob {
        tree,
        inputs: &inputs,
        groups: &groups,
        horizon: HORIZON,
        limit: LIMIT,
    };
    does_hold_of_job(alloc, &job, &links, case)
}

// The process of each of so many components: the first has one, and all others have another.
fn owners_of(alloc: Global, components: usize) -> Result<Vec<u32>, AllocError>
    ensures owned { IfOk result (λ owners. AllByRecursion (λ p. p < 2) owners.items) }
    ensures count { IfOk result (λ owners. length owners.items ≡ components) }
{
    let mut owners = Vec::with_capacity(alloc, components)?;
    for component in 0..components {
        owners.push(component.min(1) as u32)?;
    }
    Ok(owners)
}

// Whether the last process of a job without inputs does as a case says.
fn does_hold_of_job(
    alloc: Global,
    job: &TextJob<'_, '_>,
    links: &LinkLists,
    case: &Case,
) -> Result<bool, AllocError>
    requires writable { IsWritable (file_of job.now.tree.now.file) }
    requires accepted { refusal_of (file_of job.now.tree.now.file) ≡ None }
    requires inputs { job.now.inputs.now ≡ [] }
    requires links { AreLinksOf (file_of job.now.tree.now.file) links.now }
{
    // The atomic models of an accepted text have programs, and its processes start sound.
    accepted_files_are_compilable();
    processes_of_texts_start_sound();
    // Each component is in a process.
    let _processes = job.groups.processes();
    let mut bench = Bench::new(alloc);
    let Components {
        models,
        members,
        responses,
    } = components_of(&mut bench, job.tree, job.limit)?;
    let plan = plan_text(alloc, job, &models, members, responses, links)?;
    match last_process(alloc, plan)? {
        Some(mut process) => {
            let does_hold = cases::does_hold(alloc, &mut process, &mut bench, case)?;
            Ok(does_hold && process.visits() == case.visits)
        }
        None => Ok(false),
    }
}

// The last process of a plan, where nothing comes to it from outside.
fn last_process<'m>(
    alloc: Global,
    plan: Plan<Lent<'m>>,
) -> Result<Option<Process<LocalRun<Lent<'m>, PartRecord>>>, AllocError>
    requires begin { (p : ℕ) (s : Share Lent) → slice_get plan.shares.items p ≡ Some s
        → s.inputs ≡ [] → CanBegin behaviour_of_lent lent_takes s }
    ensures { IfOk result (λ found. IfSome found (λ p.
        IsConservative (view_by behaviour_of_lent told_of)
        (settled_by behaviour_of_lent settled_of) p)) }
{
    let Some(share) = last(plan.shares) else {
        return Ok(None);
    };
    if !share.inputs.is_empty() {
        return Ok(None);
    }
    let process = begin(alloc, share, PartRecord::new(alloc))?;
    Ok(Some(process))
}

// The last of a list.
fn last<T: Drop>(mut items: Vec<T>) -> Option<T>
    ensures { IfSome result (λ item. slice_get items.items (length items.items - 1) ≡ Some item) }
{
    items.pop()
}
