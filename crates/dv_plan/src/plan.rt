//! A plan of a run in processes.

ghost use Rattle.std.specs.Prelude.{◌≡◌, ◌≤◌, length, map, IfOk};
ghost use Rattle.std.specs.List.{range_with_len};
ghost use Rattle.dv_partition.specs.Groups.{owner_of};
ghost use Rattle.dv_partition.specs.Limits.{greatest_processes};
ghost use Rattle.dv_share.specs.declared.tables.Member.{Member as MemberOfCode};
ghost use Rattle.dv_plan.specs.Steps.{members_of};

use crate::cut::Cut;
use crate::responses::responses;
use crate::share::{Common, shares};
use crate::whole::Whole;
use dv_bag::Inputs;
use dv_local::Share;
use dv_partition::Groups;
use dv_partition::by_key::by_key;
use dv_proc::Channel;
use dv_react::Atomic;
use dv_share::Member;
use std::alloc::{AllocError, Global};

/// A plan of a run in processes.
#[derive(Drop)]
pub struct Plan<A> {
    /// The channels between processes, by number.
    pub links: Vec<Channel>,
    /// The share of each process, by its number.
    pub shares: Vec<Share<A>>,
}

impl<A: Atomic + Copy> Plan<A> {
    ghost use Rattle.std.specs.Prelude.{IfOk};
    ghost use Rattle.dv_plan.specs.Plans.{IsPlanOf};
    ghost use Rattle.dv_plan.specs.Wholes.{IsWhole, job_by};

    /// The plan of a flat model with these inputs, in the processes of these groups. The components
    /// are moved to the shares of their processes.
    ///
    /// # Errors
    ///
    /// No memory for the lists of the shares.
    pub fn new(
        alloc: Global,
        whole: Whole<A>,
        inputs: &Inputs,
        groups: &Groups,
    ) -> Result<Plan<A>, AllocError>
        requires { IsWhole A.fits whole }
        ensures { IfOk result (λ plan.
            IsPlanOf A.behaviour A.fits (job_by A.behaviour whole inputs.now groups.now) plan) }
    {
        let Whole {
            limit,
            horizon,
            members,
            models,
            responses: each,
            links,
            ports,
            outputs,
        } = whole;
        let least = responses(alloc, groups, &each)?;
        let members = members_of_each(alloc, groups, members)?;
        let cut = Cut::new(alloc, groups, links)?;
        let channels = cut.channels(alloc)?;
        let common = Common {
            limit,
            horizon,
            ports,
            outputs,
            cut: &cut,
            links: &channels,
            responses: &least,
            inputs,
        };
        let shares = shares(alloc, &common, members, &models)?;
        Ok(Plan {
            links: channels,
            shares,
        })
    }
}

// The components of each process.
fn members_of_each(
    alloc: Global,
    groups: &Groups,
    members: Vec<Member>,
) -> Result<Vec<Vec<Member>>, AllocError>
    ensures each { IfOk result (λ lists. map (λ list. list.items) lists.items
        ≡ map (λ p. members_of groups.now p members.items)
        (range_with_len 0 groups.now.processes)) }
    ensures few { IfOk result (λ lists. length lists.items ≤ greatest_processes) }
{
    let owners = owners(alloc, groups, &members)?;
    let lists = by_key(alloc, groups.processes(), &owners, members)?;
    Ok(lists)
}

// The process of each component.
fn owners(alloc: Global, groups: &Groups, members: &[Member]) -> Result<Vec<u32>, AllocError>
    ensures { IfOk result (λ owners. owners.items
        ≡ map (λ (m : MemberOfCode). owner_of groups.now m.number) members.now) }
{
    let mut owners = Vec::with_capacity(alloc, members.len())?;
    for member in members {
        owners.push(groups.owner(member.number))?;
    }
    Ok(owners)
}
