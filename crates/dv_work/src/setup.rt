//! Makes the links of a job, and gives each worker its processes.

ghost use Rattle.std.specs.Prelude.{◌≡◌, ◌<◌, ◌+◌, ◌%◌, ◌++◌, ◌^◌, ℕ, [], ◌∷◌, length, map, slice_get, IfOk, OnOk, Some};
ghost use Rattle.std.specs.List.{All};
ghost use Rattle.dv_conservative.specs.World.{Channel as MeantChannel};
ghost use Rattle.dv_link.specs.Ends.{capacity as capacity_of};
ghost use Rattle.dv_proc.specs.Channels.{meant_channel};
ghost use Rattle.dv_work.specs.Workers.{AreByWorker, Seated};
ghost use Rattle.dv_work.specs.Making.{AreNew, AreSeated, IsNewIn, IsNewOut, IsSeat, NamesWorkers, no_links};
ghost use Rattle.dv_work.specs.Seats.{Sits};

use crate::pause::Pause;
use crate::seat::{In, Out, Seat};
use dv_core::LogicalProcess;
use dv_link::Link;
use dv_proc::Channel;
use dv_time::Time;
use dv_written::OfJob;
use std::alloc::{AllocError, Global};

/// The processes of a job, by number, without ends of links.
///
/// # Errors
///
/// No memory for the list.
pub fn seats_of<N: OfJob, P: LogicalProcess>(
    alloc: Global,
    processes: Vec<P>,
) -> Result<Vec<Seat<P>>, AllocError>
    requires { AreNew N.job P.state P.handed P.valid processes.items }
    ensures { IfOk result (λ seats. AreSeated N.job P.state P.handed P.valid (no_links {N = N}) 0 0
        seats.items) }
{
    let mut seats = Vec::with_capacity(alloc, processes.len())?;
    for process in processes {
        let number = seats.len() as u32;
        seats.push(Seat {
            number,
            process,
            outs: Vec::new(alloc),
            ins: Vec::new(alloc),
            posted: Time::ZERO,
            pause: Pause::Over,
        })?;
    }
    Ok(seats)
}

// Gives a process the end of a link that leads away from it.
fn add_out<N: OfJob, P: LogicalProcess>(
    links: &[Link<N>],
    seat: &mut Seat<P>,
    out: Out,
) -> Result<(), AllocError>
    requires seat { IsSeat N.job P.state P.handed P.valid links.now out.number out.number seat.old }
    requires out { IsNewOut N.job links.now seat.old.number out }
    ensures seat { OnOk result (IsSeat N.job P.state P.handed P.valid links.now (out.number + 1) out.number
        seat.new) }
    ensures number { seat.new.number ≡ seat.old.number }
    ensures outs { OnOk result (seat.new.outs.items ≡ seat.old.outs.items ++ out ∷ []) }
    ensures ins { seat.new.ins ≡ seat.old.ins }
{
    let _ = links.len();
    Ok(seat.outs.push(out)?)
}

// Gives a process the end of a link that leads to it.
fn add_in<N: OfJob, P: LogicalProcess>(
    links: &[Link<N>],
    seat: &mut Seat<P>,
    end: In,
) -> Result<(), AllocError>
    requires seat { IsSeat N.job P.state P.handed P.valid links.now (end.number + 1) end.number seat.old }
    requires end { IsNewIn N.job links.now end }
    ensures seat { OnOk result (IsSeat N.job P.state P.handed P.valid links.now (end.number + 1)
        (end.number + 1) seat.new) }
    ensures number { seat.new.number ≡ seat.old.number }
    ensures ins { OnOk result (seat.new.ins.items ≡ seat.old.ins.items ++ end ∷ []) }
    ensures outs { seat.new.outs ≡ seat.old.outs }
{
    let _ = links.len();
    Ok(seat.ins.push(end)?)
}

/// Makes the links of a job, by number, each with room for `capacity` packets, and gives their ends
/// to the processes. An end names the worker of the process at the other end: process p belongs to
/// worker p mod `workers`.
///
/// # Errors
///
/// No memory for the links or their ends.
pub fn connect<N: OfJob, P: LogicalProcess>(
    alloc: Global,
    channels: &[Channel],
    capacity: usize,
    workers: usize,
    seats: &mut Vec<Seat<P>>,
) -> Result<Vec<Link<N>>, AllocError>
    requires seats { AreSeated N.job P.state P.handed P.valid (no_links {N = N}) 0 0 seats.old.items }
    requires links { map meant_channel channels.now ≡ N.job.channels }
    requires ends { (l : ℕ) (c : MeantChannel) → slice_get N.job.channels l ≡ Some c
        → (c.source < N.job.processes) × (c.target < N.job.processes) }
    requires few { length channels.now < 2 ^ 32 }
    requires capacity { 0 < capacity }
    requires workers { 0 < workers }
    ensures seated { IfOk result (λ links. (count : ℕ) × AreSeated N.job P.state P.handed P.valid
        links.items count count seats.new.items) }
    ensures capacity { IfOk result (λ links. All (λ link. capacity_of link ≡ capacity) links.items) }
    ensures workers { OnOk result (All (NamesWorkers N.job workers) seats.new.items) }
{
    let mut links = Vec::with_capacity(alloc, channels.len())?;
    for channel in channels {
        let number = links.len() as u32;
        let (link, send, take) = Link::<N>::new(alloc, number, capacity)?;
        links.push(link)?;
        let out = Out {
            number,
            pass: send,
            held: None,
            receiver: channel.target as usize % workers,
        };
        add_out(&links, &mut seats[channel.source as usize], out)?;
        let end = In {
            number,
            pass: take,
            sender: channel.source as usize % workers,
        };
        add_in(&links, &mut seats[channel.target as usize], end)?;
    }
    Ok(links)
}

// An empty list of processes for each worker.
fn empty_seats<N: OfJob, P: LogicalProcess>(
    alloc: Global,
    links: &[Link<N>],
    workers: usize,
) -> Result<Vec<Vec<Seat<P>>>, AllocError>
    ensures count { IfOk result (λ by_worker. length by_worker.items ≡ workers) }
    ensures seated { IfOk result (λ by_worker. All (Seated N.job P.state P.handed P.valid links.now)
        by_worker.items) }
    ensures workers { IfOk result (λ by_worker. AreByWorker workers by_worker.items) }
{
    let _ = links.len();
    let mut by_worker = Vec::with_capacity(alloc, workers)?;
    for _worker in 0..workers {
        by_worker.push(Vec::new(alloc))?;
    }
    Ok(by_worker)
}

// Adds a process to those of a worker.
fn add_seat<N: OfJob, P: LogicalProcess>(
    links: &[Link<N>],
    seats: &mut Vec<Seat<P>>,
    seat: Seat<P>,
) -> Result<(), AllocError>
    requires seats { Seated N.job P.state P.handed P.valid links.now seats.old }
    requires seat { Sits N.job P.state P.handed P.valid links.now seat }
    ensures seats { OnOk result (Seated N.job P.state P.handed P.valid links.now seats.new) }
    ensures items { OnOk result (seats.new.items ≡ seats.old.items ++ seat ∷ []) }
{
    let _ = links.len();
    Ok(seats.push(seat)?)
}

/// The processes of each worker, by its number: process p belongs to worker p mod `workers`.
///
/// # Errors
///
/// No memory for the lists.
pub fn seats_by_worker<N: OfJob, P: LogicalProcess>(
    alloc: Global,
    links: &[Link<N>],
    workers: usize,
    seats: Vec<Seat<P>>,
) -> Result<Vec<Vec<Seat<P>>>, AllocError>
    requires seats { All (Sits N.job P.state P.handed P.valid links.now) seats.items }
    requires workers { 0 < workers }
    ensures count { IfOk result (λ by_worker. length by_worker.items ≡ workers) }
    ensures seated { IfOk result (λ by_worker. All (Seated N.job P.state P.handed P.valid links.now)
        by_worker.items) }
    ensures workers { IfOk result (λ by_worker. AreByWorker workers by_worker.items) }
{
    let mut by_worker = empty_seats(alloc, links, workers)?;
    for seat in seats {
        let worker = seat.number as usize % workers;
        add_seat(links, &mut by_worker[worker], seat)?;
    }
    Ok(by_worker)
}
