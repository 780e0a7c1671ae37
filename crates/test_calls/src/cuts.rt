//! The links between the processes of a model.

use crate::compare::same;
use dv_partition::{Groups, PartitionError, counted_groups};
use dv_plan::{Cut, Links};
use dv_proc::Channel;
use dv_share::Link;
use std::alloc::Global;
use std::test::Fail;

/// Two components, each in a process of its own.
fn two_alone(alloc: Global) -> Result<Groups, Fail> {
    match counted_groups(alloc, 2, 2) {
        Ok(groups) => Ok(groups),
        Err(PartitionError::Refused(_)) => Err("refused")?,
        Err(PartitionError::Memory) => Err("memory")?,
    }
}

fn link(from: u32, to: u32) -> Link {
    Link {
        from,
        from_port: 0,
        to,
        to_port: 0,
        copies: 1,
    }
}

#[test]
fn two_processes_send_to_each_other(rt: HostRuntime) -> Result<(), Fail> {
    let alloc = rt.alloc();
    let groups = two_alone(alloc)?;
    let links = Links {
        direct: vec![in alloc; link(0, 1), link(1, 0)]?,
        entrances: vec![in alloc; link(0, 0)]?,
        exits: Vec::new(alloc),
    };
    let cut = Cut::new(alloc, &groups, links)?;
    let channels = cut.channels(alloc)?;
    let first = Channel {
        source: 0,
        target: 1,
    };
    let second = Channel {
        source: 1,
        target: 0,
    };
    same!(rt; channels.as_slice(), [first, second].as_slice());
    Ok(())
}
