//! Random partitions and random lists of steps.

use crate::division::Owners;
use dv_core::Step;
use std::alloc::{AllocError, Global};

/// How many steps a list has.
const STEPS: usize = 400;

/// The numbers of links below this one are tried.
pub const LINKS: u32 = 20;

/// A source of numbers that look random: a shift register with feedback (Marsaglia).
#[derive(Clone, Copy)]
pub struct Source {
    state: u64,
}

impl Source {
    /// The numbers of a seed.
    pub fn new(seed: u64) -> Self {
        Source {
            state: seed.wrapping_mul(0x9E37_79B9_7F4A_7C15) | 1,
        }
    }

    fn next(&mut self) -> u64 {
        let mut state = self.state;
        state ^= state << 13;
        state ^= state >> 7;
        state ^= state << 17;
        self.state = state;
        state
    }

    /// A number below a bound; 0 where that is 0.
    pub fn below(&mut self, bound: u32) -> u32 {
        let next = u32::try_from(self.next() >> 32).unwrap_or(0);
        if bound == 0 { 0 } else { next % bound }
    }

    /// Yes, about once in so many times.
    pub fn is_one_in(&mut self, times: u32) -> bool {
        self.below(times) == 0
    }
}

/// Some number of processes, and the process of each component.
pub fn owners(alloc: Global, source: &mut Source, components: usize) -> Result<Owners, AllocError> {
    let most = if components < 8 { components as u32 } else { 8 };
    let processes = source.below(most).saturating_add(1);
    let mut of_components = Vec::new(alloc);
    for component in 0..components {
        of_components.push(owner(source, component, processes))?;
    }
    Ok(Owners {
        of_components,
        processes,
    })
}

/// The first components have a process each.
fn owner(source: &mut Source, component: usize, processes: u32) -> u32 {
    match u32::try_from(component) {
        Ok(first) if first < processes => first,
        _ => source.below(processes),
    }
}

/// A list of steps: turns, puts and takes, now and then a stop, and now and then one of what is not
/// there.
pub fn steps(alloc: Global, source: &mut Source, processes: u32) -> Result<Vec<Step>, AllocError> {
    let mut steps = Vec::new(alloc);
    for _step in 0..STEPS {
        steps.push(step(source, processes))?;
    }
    Ok(steps)
}

fn step(source: &mut Source, processes: u32) -> Step {
    let process = source.below(processes.saturating_add(1));
    let link = source.below(LINKS);
    match source.below(200) {
        0 => Step::Stop(process),
        1..=79 => Step::Turn(process),
        80..=139 => Step::Put(link),
        _ => Step::Take(link),
    }
}
