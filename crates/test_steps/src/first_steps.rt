//! The first steps of the serial driver, after which every process stops.

use crate::division::{Division, Owners};
use crate::random::LINKS;
use dv_check::Checked;
use dv_core::{Reply, Step};
use dv_tree::Tree;
use std::alloc::{AllocError, Global};
use test_samples::checked;

/// How many packets may be on their way on a link.
const CAPACITY: u32 = 1;

/// A model with a process for each component, and a round of the serial driver over it.
#[derive(Drop)]
pub struct Driven<'t> {
    division: Division<'t>,
    round: Vec<Step>,
}

impl<'t> Driven<'t> {
    /// The model of a text; nothing where that is refused.
    pub fn new(alloc: Global, text: &'t str) -> Result<Option<Self>, AllocError> {
        match checked(alloc, text) {
            Ok(checked) => Ok(Some(Self::of_checked(alloc, text, &checked)?)),
            Err(_) => Ok(None),
        }
    }

    fn of_checked(alloc: Global, text: &'t str, checked: &Checked) -> Result<Self, AllocError> {
        let tree = Tree::of(alloc, checked)?;
        let owners = Owners::one_each(alloc, tree.component_count())?;
        let division = Division::new(alloc, text, &tree, owners)?;
        let links = link_count(alloc, &division)?;
        let round = round(alloc, division.processes(), links)?;
        Ok(Driven { division, round })
    }

    /// Whether each process has committed its part of the plain run after so many of the driver's
    /// first steps, and nothing happens any more once all processes are stopped.
    pub fn agrees(&self, alloc: Global, count: usize) -> Result<bool, AllocError> {
        let steps = self.steps(alloc, count)?;
        let replies = self.last_replies(alloc)?;
        match self.division.stepped(alloc, &steps, CAPACITY) {
            Some(stepped) => {
                Ok(stepped.replies.ends_with(&replies) && self.division.agrees(&stepped))
            }
            None => Ok(false),
        }
    }

    /// So many of the driver's first steps, a stop of each process, and one more round.
    fn steps(&self, alloc: Global, count: usize) -> Result<Vec<Step>, AllocError> {
        let mut steps = Vec::new(alloc);
        push_first(&mut steps, &self.round, count)?;
        for process in 0..self.division.processes() {
            steps.push(Step::Stop(process))?;
        }
        steps.extend_from_slice(&self.round)?;
        Ok(steps)
    }

    /// The replies to the stops, and to the round that follows them.
    fn last_replies(&self, alloc: Global) -> Result<Vec<Reply>, AllocError> {
        let mut replies = Vec::new(alloc);
        for _process in 0..self.division.processes() {
            replies.push(Reply::Done)?;
        }
        push_stopped(&mut replies, self.round.len())?;
        Ok(replies)
    }
}

fn push_stopped(replies: &mut Vec<Reply>, count: usize) -> Result<(), AllocError> {
    for _step in 0..count {
        replies.push(Reply::Stopped)?;
    }
    Ok(())
}

/// So many steps of the list that has one round after the other.
fn push_first(steps: &mut Vec<Step>, round: &[Step], count: usize) -> Result<(), AllocError> {
    let mut rest = round.iter();
    for _step in 0..count {
        if rest.as_slice().is_empty() {
            rest = round.iter();
        }
        if let Some(step) = rest.next() {
            steps.push(*step)?;
        }
    }
    Ok(())
}

/// How many links a model has in its processes: a link that is not there is refused.
fn link_count(alloc: Global, division: &Division<'_>) -> Result<u32, AllocError> {
    let mut puts = Vec::new(alloc);
    for link in 0..LINKS {
        puts.push(Step::Put(link))?;
    }
    match division.stepped(alloc, &puts, CAPACITY) {
        Some(stepped) => Ok(count_there(&stepped.replies)),
        None => Ok(0),
    }
}

fn count_there(replies: &[Reply]) -> u32 {
    let mut links: u32 = 0;
    for reply in replies {
        if *reply != Reply::Refused {
            links = links.saturating_add(1);
        }
    }
    links
}

/// A round of the serial driver: a turn of each process, and then for each link one put and one
/// take.
fn round(alloc: Global, processes: u32, links: u32) -> Result<Vec<Step>, AllocError> {
    let mut steps = Vec::new(alloc);
    for process in 0..processes {
        steps.push(Step::Turn(process))?;
    }
    push_moves(&mut steps, links)?;
    Ok(steps)
}

fn push_moves(steps: &mut Vec<Step>, links: u32) -> Result<(), AllocError> {
    for link in 0..links {
        steps.push(Step::Put(link))?;
        steps.push(Step::Take(link))?;
    }
    Ok(())
}
