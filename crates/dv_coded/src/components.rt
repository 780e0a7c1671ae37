//! The components of a text, by programs.

ghost use Rattle.std.specs.List.{All};
ghost use Rattle.std.specs.Prelude.{◌≡◌, ◌<◌, ◌≤◌, ◌^◌, [], Some, length, map, slice_get, IfOk};
ghost use Rattle.dv_bag.specs.declared.response.Response.{Response};
ghost use Rattle.dv_bag.specs.Responses.{ticks_of};
ghost use Rattle.dv_bound.specs.Response.{response_of};
ghost use Rattle.dv_bound.specs.Short.{IsShort};
ghost use Rattle.dv_code.specs.Shape.{Fits};
ghost use Rattle.dv_eval.specs.Scope.{scope_of};
ghost use Rattle.dv_flat.specs.Ends.{output_count};
ghost use Rattle.dv_gen.specs.ModelCode.{IsCompilable, IsCompilableModel};
ghost use Rattle.dv_gen.specs.Resolution.{tables_of};
ghost use Rattle.dv_react.specs.Components.{IsWaitOfRun, component_of};
ghost use Rattle.dv_share.specs.Indices.{AreRising};
ghost use Rattle.dv_share.specs.Share.{member_by, numbers_of};
ghost use Rattle.dv_share.specs.declared.tables.Member.{Member};
ghost use Rattle.dv_syntax.specs.Trees.{AtomicTree, ModelTree, atomic_of, file_of};
ghost use Rattle.dv_tree.specs.Instances.{Instance, instances};
ghost use Rattle.law_compiled.specs.Networks.{start_by};
ghost use Rattle.law_sound.specs.Members.{members_from};
ghost use Rattle.dv_coded.specs.Components.{AreMembersFrom, AreModelsOf, IsMemberOf, StandsAmong};
ghost use Rattle.dv_coded.specs.Models.{AreProgramsOf, behaviour_of};

use crate::bench::Bench;
use crate::lent::Lent;
use crate::models::Models;
use crate::programs::Programs;
use dv_bag::Response;
use dv_eval::{Scope, start_state};
use dv_gen::laws::states_fit_the_tables;
use dv_react::Running;
use dv_share::{Member, Start};
use dv_syntax::Atomic;
use dv_tree::Tree;
use law_accepted::laws::start_states_fit;
use std::alloc::{AllocError, Global};

/// The components of a text, with the programs of their models.
#[derive(Drop)]
pub struct Components {
    /// The programs of each model that has a component, once.
    pub models: Vec<Programs>,
    /// The components, in the order of their numbers, with indices into `models`.
    pub members: Vec<Member>,
    /// The response of each component, in the order of their numbers.
    pub responses: Vec<Response>,
}

/// The components of a text as they start under a microstep limit. The programs and the response of
/// a model are made once, however many components it has.
///
/// # Errors
///
/// No memory for the components or programs.
pub fn components_of(bench: &mut Bench, tree: &Tree, limit: u32) -> Result<Components, AllocError>
    requires compilable { All (λ (m : ModelTree). IsCompilableModel m)
        (file_of tree.now.file).models }
    ensures members { IfOk result (λ c.
        map (member_by behaviour_of limit c.models.items) c.members.items
        ≡ members_from limit 0 (instances (file_of tree.now.file))) }
    ensures outputs { IfOk result (λ c. map (λ (x : Member). x.outputs) c.members.items
        ≡ map (λ (i : Instance). output_count i.model) (instances (file_of tree.now.file))) }
    ensures rise { IfOk result (λ c. AreRising (numbers_of c.members.items)) }
    ensures among { IfOk result (λ c. All (StandsAmong limit c.models.items) c.members.items) }
    ensures once { IfOk result (λ c.
        length c.models.items ≤ length (file_of tree.now.file).models) }
    ensures responses { IfOk result (λ c. map ticks_of c.responses.items
        ≡ map (λ (i : Instance). response_of i.model) (instances (file_of tree.now.file))) }
    ensures short { IfOk result (λ c.
        All (λ (r : Response). IsShort (ticks_of r)) c.responses.items) }
{
    let alloc = bench.alloc;
    let mut models = Models::new(alloc, tree)?;
    let members = members(bench, tree, limit, &mut models)?;
    let Models {
        programs,
        responses,
        ..
    } = models;
    Ok(Components {
        responses: responses_of(alloc, &responses, &members)?,
        models: programs,
        members,
    })
}

// The components in the order of their numbers. Their models are added to `models`.
fn members(
    bench: &mut Bench,
    tree: &Tree,
    limit: u32,
    models: &mut Models,
) -> Result<Vec<Member>, AllocError>
    requires compilable { All (λ (m : ModelTree). IsCompilableModel m)
        (file_of tree.now.file).models }
    requires known { AreModelsOf (file_of tree.now.file).models models.old }
    requires none { models.old.programs.items ≡ [] }
    ensures members { IfOk result (λ xs. AreMembersFrom limit models.new.programs.items
        models.new.responses.items 0 xs.items (instances (file_of tree.now.file))) }
    ensures once { IfOk result (λ xs.
        length models.new.programs.items ≤ length (file_of tree.now.file).models) }
    ensures count { IfOk result (λ xs.
        length xs.items ≡ length (instances (file_of tree.now.file))) }
{
    let mut members = Vec::with_capacity(bench.alloc, tree.component_count())?;
    for component in 0..tree.component_count() {
        let model = models.of_component(bench.alloc, tree, component)?;
        let programs = &models.programs[model as usize];
        members.push(member(bench, tree, limit, component, model, programs)?)?;
    }
    Ok(members)
}

// One component. `model` is the index of its model, `programs` are the model's.
fn member(
    bench: &mut Bench,
    tree: &Tree,
    limit: u32,
    component: usize,
    model: u32,
    programs: &Programs,
) -> Result<Member, AllocError>
    requires component { component < length (instances (file_of tree.now.file)) }
    requires compilable { All (λ (m : ModelTree). IsCompilableModel m)
        (file_of tree.now.file).models }
    requires small { component < 2 ^ 32 }
    requires programs { (m : AtomicTree)
        → slice_get (map (λ i. i.model) (instances (file_of tree.now.file))) component ≡ Some m
        → AreProgramsOf m programs.now }
    ensures { IfOk result (λ x. (m : AtomicTree)
        → slice_get (map (λ i. i.model) (instances (file_of tree.now.file))) component ≡ Some m
        → IsMemberOf limit component model m x) }
{
    let start = start(
        bench,
        limit,
        programs,
        tree.atomic(component),
        tree.scope(component),
    )?;
    Ok(Member {
        number: component as u32,
        model,
        inputs: programs.code.tables.inputs(),
        outputs: programs.code.tables.outputs(),
        start: Start::new(bench.alloc, start)?,
    })
}

// How a component of a model starts.
fn start(
    bench: &mut Bench,
    limit: u32,
    programs: &Programs,
    model: &Atomic,
    scope: &Scope,
) -> Result<Running, AllocError>
    requires scope { scope.now ≡ scope_of (atomic_of model.now) }
    requires compilable { IsCompilable (atomic_of model.now) }
    requires programs { AreProgramsOf (atomic_of model.now) programs.now }
    ensures start { IfOk result (λ r.
        component_of limit r ≡ start_by limit (atomic_of model.now)) }
    ensures wait { IfOk result (λ r. IsWaitOfRun limit r.wait) }
    ensures fits { IfOk result (λ r.
        Fits (tables_of (scope_of (atomic_of model.now))).slots r.state.variables) }
{
    // For the prover alone.
    start_states_fit();
    states_fit_the_tables();
    let state = start_state(bench.alloc, model, scope)?;
    let lent = Lent::of(programs);
    Running::start(&lent, bench, limit, state)
}

// The response of each component, by those of the models.
fn responses_of(
    alloc: Global,
    responses: &[Response],
    members: &[Member],
) -> Result<Vec<Response>, AllocError>
    requires { All (λ (x : Member). x.model < length responses.now) members.now }
    ensures { IfOk result (λ all. map (λ (r : Response). Some r) all.items
        ≡ map (λ (x : Member). slice_get responses.now x.model) members.now) }
{
    let mut all = Vec::with_capacity(alloc, members.len())?;
    for member in members {
        all.push(responses[member.model as usize])?;
    }
    Ok(all)
}
