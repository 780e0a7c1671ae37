//! The channels between processes.

ghost use Rattle.std.specs.Prelude.{◌≡◌, ◌*◌, ◌<◌, ◌≤◌, ◌^◌, ◌++◌, length, map, IfOk, OnOk};
ghost use Rattle.dv_conservative.specs.World.{Job, incoming_from, outgoing_from};
ghost use Rattle.dv_partition.specs.Limits.{greatest_processes};
ghost use Rattle.dv_proc.specs.Channels.{meant_channel};
ghost use Rattle.dv_plan.specs.Channels.{away_of};
ghost use Rattle.dv_plan.specs.Keys.{all_sent, sends, sent_by};

use dv_proc::Channel;
use dv_share::Link;
use std::alloc::{AllocError, Global};

/// A channel that leads away from a process.
#[derive(Clone, Copy, PartialEq, Eq)]
pub struct Away {
    /// The number of the channel.
    pub number: u32,
    /// The number of the process to which it leads.
    pub target: u32,
}

/// The numbers of the channels that lead to a process.
///
/// # Errors
///
/// No memory for the list.
pub fn incoming(alloc: Global, channels: &[Channel], process: u32) -> Result<Vec<u32>, AllocError>
    requires { length channels.now ≤ 2 ^ 32 }
    ensures { IfOk result (λ found. found.items
        ≡ incoming_from process 0 (map meant_channel channels.now)) }
{
    let mut found = Vec::new(alloc);
    for (number, channel) in channels.iter().enumerate() {
        if channel.target == process {
            found.push(number as u32)?;
        }
    }
    Ok(found)
}

/// The channels that lead away from a process.
///
/// # Errors
///
/// No memory for the list.
pub fn outgoing(alloc: Global, channels: &[Channel], process: u32) -> Result<Vec<Away>, AllocError>
    requires { length channels.now ≤ 2 ^ 32 }
    ensures { IfOk result (λ found. (job : Job) → map (away_of job process) found.items
        ≡ outgoing_from job process 0 (map meant_channel channels.now)) }
{
    let mut found = Vec::new(alloc);
    for (number, channel) in channels.iter().enumerate() {
        if channel.source == process {
            found.push(Away {
                number: number as u32,
                target: channel.target,
            })?;
        }
    }
    Ok(found)
}

/// The channels between processes. `pairs` has the links from each process to each other one.
///
/// # Errors
///
/// No memory for the list.
pub(crate) fn channels(
    alloc: Global,
    processes: u32,
    pairs: &[Vec<Link>],
) -> Result<Vec<Channel>, AllocError>
    requires few { processes ≤ greatest_processes }
    requires long { length pairs.now ≡ processes * processes }
    ensures { IfOk result (λ found. map meant_channel found.items
        ≡ all_sent (sends processes (map (λ list. list.items) pairs.now)) processes 0 processes) }
{
    let mut found = Vec::new(alloc);
    for source in 0..processes {
        add_channels(source, processes, pairs, &mut found)?;
    }
    Ok(found)
}

// Adds the channels that lead away from a process.
fn add_channels(
    source: u32,
    processes: u32,
    pairs: &[Vec<Link>],
    found: &mut Vec<Channel>,
) -> Result<(), AllocError>
    requires few { processes ≤ greatest_processes }
    requires there { source < processes }
    requires long { length pairs.now ≡ processes * processes }
    ensures { OnOk result (map meant_channel found.new.items
        ≡ map meant_channel found.old.items
        ++ sent_by (sends processes (map (λ list. list.items) pairs.now)) source 0 processes) }
{
    for target in 0..processes {
        if sends_to(source, target, processes, pairs) {
            found.push(Channel { source, target })?;
        }
    }
    Ok(())
}

// Whether a process sends to another one.
fn sends_to(source: u32, target: u32, processes: u32, pairs: &[Vec<Link>]) -> bool
    requires few { processes ≤ greatest_processes }
    requires source { source < processes }
    requires target { target < processes }
    requires long { length pairs.now ≡ processes * processes }
    ensures { result ≡ sends processes (map (λ list. list.items) pairs.now) source target }
{
    if source == target {
        return false;
    }
    let index = (source * processes + target) as usize;
    !pairs[index].as_slice().is_empty()
}
