//! The options of a run.

ghost use Rattle.std.specs.Prelude.{◌≡◌, ◌<◌, ◌≤◌, ◌↔◌, IsSome, IfSome, Some};
ghost use Rattle.dv_job.specs.Ranges.{AreInRange, IsDriver, driver_of, workers_in};

use dv_time::{GREATEST_LIMIT, GREATEST_TICK};

/// The greatest number of workers.
pub const MOST_WORKERS: u32 = 256;

/// The greatest number of packets on a link between two processes.
pub const GREATEST_CAPACITY: u32 = 1_024;

/// What drives the processes of a run.
#[derive(Clone, Copy, PartialEq, Eq)]
pub enum Driver {
    /// Rounds on one thread: at most so many, or as many as are needed.
    Rounds(Option<u64>),
    /// So many workers on threads, 1 to 256.
    Workers(u32),
}

/// How far to run, and how. The type keeps that all values are in their ranges.
#[derive(Clone, Copy)]
pub struct Options {
    /// The last tick of the run, 0 to 10^15.
    pub horizon: u64,
    /// The limit on the microsteps of a tick, 1 to 1,000.
    pub limit: u32,
    /// What drives the processes.
    pub driver: Driver,
    /// How many packets each link between two processes has room for, 1 to 1,024.
    pub capacity: u32,
    pub ghost in_range: { AreInRange horizon limit (Some driver) capacity },
}

impl Options {
    /// Options with these values, or `None` if one is out of its range, or if both workers and
    /// rounds are given.
    pub fn new(
        horizon: u64,
        limit: u32,
        workers: Option<u32>,
        rounds: Option<u64>,
        capacity: u32,
    ) -> Option<Options>
        ensures accepted { IsSome result
            ↔ AreInRange horizon limit (driver_of workers rounds) capacity }
        ensures horizon { IfSome result (λ o. o.horizon ≡ horizon) }
        ensures limit { IfSome result (λ o. o.limit ≡ limit) }
        ensures driver { IfSome result (λ o. Some o.driver ≡ driver_of workers rounds) }
        ensures capacity { IfSome result (λ o. o.capacity ≡ capacity) }
    {
        if horizon > GREATEST_TICK || limit < 1 || limit > GREATEST_LIMIT {
            return None;
        }
        if capacity < 1 || capacity > GREATEST_CAPACITY {
            return None;
        }
        let driver = driver_in_range(workers, rounds)?;
        Some(Options {
            horizon,
            limit,
            driver,
            capacity,
        })
    }

    /// How many workers `run_by_workers` has, 1 to 256: one if the driver is rounds.
    pub fn workers(&self) -> u32
        ensures count { result ≡ workers_in self.now.driver }
        ensures some { 0 < result }
    {
        match self.driver {
            Driver::Rounds(_) => 1,
            Driver::Workers(count) => count,
        }
    }
}

// The driver of a run for which workers or rounds are given, or `None` if both are, or if the
// number of workers is out of its range.
fn driver_in_range(workers: Option<u32>, rounds: Option<u64>) -> Option<Driver>
    ensures accepted { IsSome result ↔ IsDriver (driver_of workers rounds) }
    ensures is { IfSome result (λ d. Some d ≡ driver_of workers rounds) }
{
    match (workers, rounds) {
        (None, rounds) => Some(Driver::Rounds(rounds)),
        (Some(count), None) => {
            if count >= 1 && count <= MOST_WORKERS {
                Some(Driver::Workers(count))
            } else {
                None
            }
        }
        (Some(_), Some(_)) => None,
    }
}
