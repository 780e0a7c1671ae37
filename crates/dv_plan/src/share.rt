//! The shares of a plan.

ghost use Rattle.std.specs.Prelude.{◌≡◌, ◌<◌, ◌≤◌, ◌^◌, IfOk, List, length, map};
ghost use Rattle.std.specs.List.{AllByRecursion};
ghost use Rattle.dv_conservative.specs.World.{Job, outgoing_from};
ghost use Rattle.dv_local.specs.Shares.{outgoing_of};
ghost use Rattle.dv_partition.specs.Groups.{owner_of};
ghost use Rattle.dv_partition.specs.Limits.{greatest_processes};
ghost use Rattle.dv_proc.specs.Channels.{meant_channel};
ghost use Rattle.dv_share.specs.Links.{RiseBySource, links_of};
ghost use Rattle.dv_share.specs.Indices.{AreRising};
ghost use Rattle.dv_share.specs.Share.{numbers_of};
ghost use Rattle.dv_share.specs.declared.tables.Member.{Member as MemberOfCode};
ghost use Rattle.dv_plan.specs.Cuts.{between, entrances_to, exits_from};
ghost use Rattle.dv_plan.specs.Steps.{AreMade, IsMadeOf, Rises, way_of};

use crate::channels::{Away, incoming, outgoing};
use crate::cut::Cut;
use crate::led::led_inputs;
use dv_bag::{Inputs, Response};
use dv_local::{Share, Way};
use dv_proc::Channel;
use dv_share::{Entrances, Link, Member, Routes, Tables};
use std::alloc::{AllocError, Global};

/// What the shares of all processes are made from, beside their components.
#[derive(Clone, Copy)]
pub struct Common<'a> {
    /// The limit on the microsteps of a tick.
    pub limit: u32,
    /// The last tick of the run.
    pub horizon: u64,
    /// How many input ports the model has.
    pub ports: u32,
    /// How many output ports the model has.
    pub outputs: u32,
    /// The links of the model, cut to processes.
    pub cut: &'a Cut<'a>,
    /// The channels between processes, by number.
    pub links: &'a [Channel],
    /// The response of each process, by its number.
    pub responses: &'a [Response],
    /// All inputs of the model, by time.
    pub inputs: &'a Inputs,
}

/// The shares of all processes, from the components of each.
///
/// # Errors
///
/// No memory for them.
pub(crate) fn shares<A: Copy>(
    alloc: Global,
    common: &Common<'_>,
    members: Vec<Vec<Member>>,
    models: &[A],
) -> Result<Vec<Share<A>>, AllocError>
    requires count { length members.items ≤ length common.now.responses.now }
    requires there { length members.items ≤ common.now.cut.now.grouping.processes }
    requires processes { length members.items ≤ greatest_processes }
    requires few { length common.now.links.now ≤ 2 ^ 32 }
    requires rises { Rises common.now.cut.now }
    requires rise { AllByRecursion (λ (ms : List MemberOfCode). AreRising (numbers_of ms))
        (map (λ list. list.items) members.items) }
    ensures count { IfOk result (λ found. length found.items ≡ length members.items) }
    ensures made { IfOk result (λ found.
        AreMade common.now (map (λ list. list.items) members.items) models.now found.items) }
{
    let processes = members.len();
    let mut found = Vec::with_capacity(alloc, processes)?;
    let mut rest = members.into_iter();
    for process in 0..processes {
        if let Some(list) = rest.next() {
            let models = copies(alloc, models)?;
            let share = share_of_process(alloc, common, process as u32, list, models)?;
            found.push(share)?;
        }
    }
    Ok(found)
}

// The share of a process, from its components and their models.
fn share_of_process<A: Drop>(
    alloc: Global,
    common: &Common<'_>,
    process: u32,
    members: Vec<Member>,
    models: Vec<A>,
) -> Result<Share<A>, AllocError>
    requires there { process < common.now.cut.now.grouping.processes }
    requires response { process < length common.now.responses.now }
    requires few { length common.now.links.now ≤ 2 ^ 32 }
    requires rises { Rises common.now.cut.now }
    requires rise { AreRising (numbers_of members.items) }
    ensures { IfOk result (λ s. IsMadeOf common.now process members.items models.items s) }
{
    let inputs = led_inputs(
        alloc,
        common.limit,
        common.ports,
        &members,
        common.cut.entrances(process as usize),
        common.inputs,
    )?;
    let sources = incoming(alloc, common.links, process)?;
    let ways = ways_of_process(alloc, common, process)?;
    let tables = tables_of_process(alloc, common, process, members, models)?;
    Ok(Share {
        tables,
        horizon: common.horizon,
        response: common.responses[process as usize],
        sources,
        ways,
        ports: common.ports,
        inputs,
    })
}

// The tables of a process, from its components and their models.
fn tables_of_process<A: Drop>(
    alloc: Global,
    common: &Common<'_>,
    process: u32,
    members: Vec<Member>,
    models: Vec<A>,
) -> Result<Tables<A>, AllocError>
    requires there { process < common.now.cut.now.grouping.processes }
    requires rises { Rises common.now.cut.now }
    ensures limit { IfOk result (λ t. t.limit ≡ common.now.limit) }
    ensures members { IfOk result (λ t. t.members.items ≡ members.items) }
    ensures models { IfOk result (λ t. t.models.items ≡ models.items) }
    ensures links { IfOk result (λ t. t.links ≡ between common.now.cut.now process process) }
    ensures entrances { IfOk result (λ t. t.entrances ≡ entrances_to common.now.cut.now process) }
    ensures exits { IfOk result (λ t. t.exits ≡ exits_from common.now.cut.now process) }
    ensures outputs { IfOk result (λ t. t.outputs ≡ common.now.outputs) }
{
    let index = process as usize;
    Ok(Tables {
        limit: common.limit,
        members,
        models,
        links: routes(alloc, common.cut.between(index, index))?,
        entrances: Entrances::new(copies(alloc, common.cut.entrances(index))?),
        exits: routes(alloc, common.cut.exits(index))?,
        outputs: common.outputs,
    })
}

// The channels that lead away from a process, each with its links between components.
fn ways_of_process(alloc: Global, common: &Common<'_>, process: u32) -> Result<Vec<Way>, AllocError>
    requires there { process < common.now.cut.now.grouping.processes }
    requires few { length common.now.links.now ≤ 2 ^ 32 }
    requires rises { Rises common.now.cut.now }
    ensures { IfOk result (λ found. (job : Job) → job.owner ≡ owner_of common.now.cut.now.grouping
        → job.flat.links ≡ common.now.cut.now.direct → map outgoing_of found.items
        ≡ outgoing_from job process 0 (map meant_channel common.now.links.now)) }
{
    let away = outgoing(alloc, common.links, process)?;
    Ok(ways(alloc, common.cut, process, &away)?)
}

// Adds to each channel that leads away from a process its links between components.
fn ways(alloc: Global, cut: &Cut<'_>, process: u32, away: &[Away]) -> Result<Vec<Way>, AllocError>
    requires there { process < cut.now.grouping.processes }
    requires rises { Rises cut.now }
    ensures { IfOk result (λ found. map outgoing_of found.items
        ≡ map (way_of cut.now process) away.now) }
{
    let mut found = Vec::with_capacity(alloc, away.len())?;
    for link in away {
        found.push(Way {
            number: link.number,
            links: routes(alloc, links_to(cut, process, link.target))?,
        })?;
    }
    Ok(found)
}

// The links from the components of a process to those of another process, or none if there is no
// such process.
fn links_to<'c>(cut: &'c Cut<'_>, source: u32, target: u32) -> &'c [Link]
    requires { source < cut.now.grouping.processes }
    ensures { links_of result.now ≡ between cut.now source target }
{
    let index = target as usize;
    if index < cut.groups().processes() {
        cut.between(source as usize, index)
    } else {
        &[]
    }
}

// Links that are sorted by the ports that they lead from, as a table that finds those of a port.
fn routes(alloc: Global, links: &[Link]) -> Result<Routes, AllocError>
    requires { RiseBySource (links_of links.now) }
    ensures { IfOk result (λ found. found ≡ links_of links.now) }
{
    Routes::new(alloc, copies(alloc, links)?)
}

// A copy of a list.
fn copies<T: Copy>(alloc: Global, items: &[T]) -> Result<Vec<T>, AllocError>
    ensures { IfOk result (λ found. found.items ≡ items.now) }
{
    items.iter().copied().collect(alloc)
}
