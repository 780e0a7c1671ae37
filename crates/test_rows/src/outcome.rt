//! The result of a command for a text.

use dv_job::{
    Driver, Options, check_bytes, list_code, plan_bytes, run_by_workers, run_bytes, run_plain,
    status,
};
use dv_partition::Partition;
use std::alloc::{AllocError, Global};
use std::sync::Wait;
use std::thread::Threads;

/// The microstep limit where a command names none.
const USUAL_LIMIT: u64 = 20;

/// How many packets may be on their way on a link between processes, where a command names no
/// number.
const LINK_CAPACITY: u64 = 16;

/// The most processes in which a run of one process is tried again.
const MOST_PROCESSES: u32 = 64;

/// The numbers of workers and of packets on a link with which each run has to print the same.
const WORKERS: [u32; 4] = [1, 2, 3, 8];

const CAPACITIES: [u32; 3] = [1, 2, 16];

/// What a command reads.
#[derive(Clone, Copy)]
pub struct Texts<'a> {
    /// The text of the model.
    pub model: &'a [u8],
    /// The text of the partition.
    pub partition: &'a [u8],
    /// The text of the inputs.
    pub inputs: &'a [u8],
}

/// What a command prints of its texts, and then its status, as `status 3`, or the error.
pub fn outcome_of<R: AllocGlobal + Threads + Wait + Sync>(
    rt: &R,
    command: &str,
    texts: Texts<'_>,
) -> Result<String, AllocError> {
    let alloc = rt.alloc();
    match command.split_whitespace().next() {
        Some("check") => checked(alloc, texts),
        Some("code") => listed(alloc, texts),
        Some("plain") => ran_plainly(alloc, command, texts),
        Some("plan") => planned(alloc, command, texts),
        Some("run") => ran(rt, command, texts),
        Some(_) | None => String::from_str(alloc, "no command"),
    }
}

/// What a run of one process prints in another way where that is not what is wanted: by the plain
/// run; and where each component has a process of its own, in rounds with one packet on a link at
/// most, and by workers. Of any other command nothing.
pub fn other_outcome<R: AllocGlobal + Threads + Wait + Sync>(
    rt: &R,
    command: &str,
    texts: Texts<'_>,
    wanted: &str,
) -> Result<Option<String>, AllocError> {
    if !command.starts_with("run") || command.contains("--p") || command.contains("--rounds") {
        return Ok(None);
    }
    let options = command.strip_prefix("run").unwrap_or("");
    let plainly = format!(in rt.alloc(); "plain{options}")?;
    let outcome = outcome_of(rt, plainly.as_str(), texts)?;
    if outcome.as_str() != wanted {
        return Ok(Some(outcome));
    }
    let count = check_bytes(rt.alloc(), texts.model).unwrap_or(1);
    let count = count.min(MOST_PROCESSES);
    let in_processes = format!(in rt.alloc(); "{command} --processes {count}")?;
    let in_rounds = format!(in rt.alloc(); "{in_processes} --capacity 1")?;
    let outcome = outcome_of(rt, in_rounds.as_str(), texts)?;
    if outcome.as_str() != wanted {
        return Ok(Some(outcome));
    }
    for workers in WORKERS {
        let worked = format!(in rt.alloc(); "{in_processes} --workers {workers}")?;
        if let Some(outcome) = outcome_by_workers(rt, worked.as_str(), texts, wanted)? {
            return Ok(Some(outcome));
        }
    }
    Ok(None)
}

/// What a run by workers prints where that is not what is wanted, with one packet on a link at
/// most, or more.
fn outcome_by_workers<R: AllocGlobal + Threads + Wait + Sync>(
    rt: &R,
    command: &str,
    texts: Texts<'_>,
    wanted: &str,
) -> Result<Option<String>, AllocError> {
    for capacity in CAPACITIES {
        let worked = format!(in rt.alloc(); "{command} --capacity {capacity}")?;
        let outcome = outcome_of(rt, worked.as_str(), texts)?;
        if outcome.as_str() != wanted {
            return Ok(Some(outcome));
        }
    }
    Ok(None)
}

fn checked(alloc: Global, texts: Texts<'_>) -> Result<String, AllocError> {
    match check_bytes(alloc, texts.model) {
        Ok(components) => format!(in alloc; "accepted {components}\nstatus 0"),
        Err(error) => error.to_string(alloc),
    }
}

fn listed(alloc: Global, texts: Texts<'_>) -> Result<String, AllocError> {
    let mut printed = Vec::new(alloc);
    let ending = match list_code(alloc, texts.model, &mut printed) {
        Ok(()) => String::from_str(alloc, "status 0")?,
        Err(error) => error.to_string(alloc)?,
    };
    told(alloc, &printed, ending.as_str())
}

fn planned(alloc: Global, command: &str, texts: Texts<'_>) -> Result<String, AllocError> {
    match plan_bytes(alloc, texts.model, partition_of(command, texts.partition)) {
        Ok(plan) => format!(in alloc; "{plan}\nstatus 0"),
        Err(error) => error.to_string(alloc),
    }
}

/// How a command divides a model: as the partition says, or into so many processes, or into one.
fn partition_of<'a>(command: &str, partition: &'a [u8]) -> Partition<'a> {
    if command.contains("--partition") {
        return Partition::Json(partition);
    }
    let count = number_behind(command, "--processes").unwrap_or(1);
    Partition::Count(in_32_bits(count))
}

fn ran<R: AllocGlobal + Threads + Wait + Sync>(
    rt: &R,
    command: &str,
    texts: Texts<'_>,
) -> Result<String, AllocError> {
    let alloc = rt.alloc();
    let Some(options) = options_of(command) else {
        return String::from_str(alloc, "no options");
    };
    let groups = partition_of(command, texts.partition);
    let mut printed = Vec::new(alloc);
    let ended = match options.driver {
        Driver::Workers(_) => run_by_workers(
            rt,
            texts.model,
            texts.inputs,
            groups,
            &options,
            &mut printed,
        ),
        Driver::Rounds(_) => run_bytes(
            alloc,
            texts.model,
            texts.inputs,
            groups,
            &options,
            &mut printed,
        ),
    };
    let status = status(&ended);
    let ending = match ended {
        Ok(_) => format!(in alloc; "status {status}")?,
        Err(error) => error.to_string(alloc)?,
    };
    told(alloc, &printed, ending.as_str())
}

fn ran_plainly(alloc: Global, command: &str, texts: Texts<'_>) -> Result<String, AllocError> {
    let Some(options) = options_of(command) else {
        return String::from_str(alloc, "no options");
    };
    let mut printed = Vec::new(alloc);
    let ended = run_plain(alloc, texts.model, texts.inputs, &options, &mut printed);
    let status = status(&ended);
    let ending = match ended {
        Ok(_) => format!(in alloc; "status {status}")?,
        Err(error) => error.to_string(alloc)?,
    };
    told(alloc, &printed, ending.as_str())
}

/// The options that a command names; none where one is out of its range, or where they do not stand
/// beside each other.
fn options_of(command: &str) -> Option<Options> {
    let horizon = number_behind(command, "--horizon").unwrap_or(0);
    let limit = number_behind(command, "--microsteps").unwrap_or(USUAL_LIMIT);
    let limit = in_32_bits(limit);
    let workers = number_behind(command, "--workers").map(in_32_bits);
    let rounds = number_behind(command, "--rounds");
    let capacity = number_behind(command, "--capacity").unwrap_or(LINK_CAPACITY);
    let capacity = in_32_bits(capacity);
    Options::new(horizon, limit, workers, rounds, capacity)
}

/// A number where 32 bits are wanted. One that is greater is out of every range, as the greatest of
/// 32 bits is.
fn in_32_bits(number: u64) -> u32 {
    number.min(u64::from(u32::MAX)) as u32
}

/// What was printed, and then how it ended.
fn told(alloc: Global, printed: &[u8], ending: &str) -> Result<String, AllocError> {
    let text = str::from_utf8(printed).unwrap_or("not text\n");
    format!(in alloc; "{text}{ending}")
}

/// The number behind an option in a command.
fn number_behind(command: &str, option: &str) -> Option<u64> {
    let mut words = command.split_whitespace();
    while let Some(word) = words.next() {
        if word == option {
            return words.next()?.parse::<u64>().ok();
        }
    }
    None
}
