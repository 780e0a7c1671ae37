//! How many bytes each process has posted that are not written yet.

ghost use Rattle.std.specs.Prelude.{◌≡◌, ◌<◌, ◌≤◌, ◌-◌, ◌/◌, ◌↔◌, false, true, IfOk, IsTrue, length};

use std::alloc::{AllocError, Global};
use std::marker::Model;
use std::sync::atomic::{AtomicUsize, Ordering};

// The bytes of lines that may wait of a process, however small it is: about a thousand lines of
// usual length. With fewer, workers would sleep and wake at almost each look of the writer.
const BYTES_OF_EACH: usize = 49_152;

// The bytes of lines that may wait for each component of a process: two lines of usual length. All
// components may have a line at one instant, and a process that waited at each instant would
// hardly ever work while others do.
const BYTES_OF_A_COMPONENT: usize = 96;

/// The lead of one process: how many bytes of its lines were posted, and are not written and freed
/// yet.
#[derive(Drop)]
pub struct Lead {
    bytes: AtomicUsize,
    // How many of them were taken off the board. Only the thread that takes them changes this.
    taken: AtomicUsize,
}

impl Lead {
    /// A lead of no bytes.
    pub fn new() -> Lead {
        Lead {
            bytes: AtomicUsize::new(0),
            taken: AtomicUsize::new(0),
        }
    }

    /// How many bytes the lead has.
    pub fn bytes(&self) -> usize {
        self.bytes.load(Ordering::SeqCst)
    }

    /// Counts bytes that are posted.
    pub fn add(&self, bytes: usize) {
        self.bytes.fetch_add(bytes, Ordering::SeqCst);
    }

    /// Counts bytes that were taken off the board.
    pub fn take(&self, bytes: usize) {
        self.taken.fetch_add(bytes, Ordering::SeqCst);
    }

    /// Keeps `kept` of the bytes that were taken, and subtracts the others, which were written.
    /// Returns in one step how many bytes the lead had before, and how many were subtracted.
    pub fn keep(&self, kept: usize) -> (usize, usize) {
        let taken = self.taken.load(Ordering::SeqCst);
        let gone = taken.saturating_sub(kept);
        if gone == 0 {
            return (self.bytes(), 0);
        }
        self.taken.store(kept, Ordering::SeqCst);
        (self.bytes.fetch_sub(gone, Ordering::SeqCst), gone)
    }
}

/// The leads of the processes of a job, by number, and how many bytes of each process may wait.
/// Contracts see how many processes there are. A number past the last process has no lead.
#[derive(Drop)]
pub struct Leads {
    leads: Vec<Lead>,
    processes: u32,
    most: usize,
}

impl Model for Leads {
    ghost use Rattle.std.specs.Prelude.{ℕ, length};

    ghost Value = { ℕ };

    ghost view = { λ l. length l.leads.items };
}

// How many bytes of lines may wait of each process.
fn most_of(processes: u32, components: usize) -> usize {
    let of_one = components / processes.max(1) as usize;
    of_one
        .saturating_mul(BYTES_OF_A_COMPONENT)
        .max(BYTES_OF_EACH)
}

// Whether a process with so many waiting bytes has to be held back, if at most `most` may wait. If
// it is held back already, it is until half of them are left.
fn are_too_many(bytes: usize, most: usize, is_held_back: bool) -> bool
    ensures free { is_held_back ≡ false → IsTrue result ↔ (most < bytes) }
    ensures held_back { is_held_back ≡ true → IsTrue result ↔ (most / 2 < bytes) }
{
    if is_held_back {
        bytes > most / 2
    } else {
        bytes > most
    }
}

// Whether a lead falls to half of `most` if `gone` of its bytes are subtracted.
fn falls_to_half(bytes: usize, gone: usize, most: usize) -> bool
    ensures { IsTrue result ↔ (most / 2 < bytes) × (bytes - gone ≤ most / 2) }
{
    let half = most / 2;
    bytes > half && bytes.saturating_sub(gone) <= half
}

// The leads of processes that have posted nothing.
fn new_leads(alloc: Global, processes: u32) -> Result<Vec<Lead>, AllocError>
    ensures { IfOk result (λ leads. length leads.items ≡ processes) }
{
    let mut leads = Vec::with_capacity(alloc, processes as usize)?;
    for _process in 0..processes {
        leads.push(Lead::new())?;
    }
    Ok(leads)
}

impl Leads {
    /// The leads of processes that have posted nothing, and that have so many components in all.
    ///
    /// # Errors
    ///
    /// No memory for the list.
    pub fn new(alloc: Global, processes: u32, components: usize) -> Result<Self, AllocError>
        ensures count { IfOk result (λ leads. leads ≡ processes) }
    {
        Ok(Leads {
            leads: new_leads(alloc, processes)?,
            processes,
            most: most_of(processes, components),
        })
    }

    /// How many processes there are.
    pub fn processes(&self) -> u32 {
        self.processes
    }

    /// Whether a process has to be held back: if more bytes wait than may, or, if it is held back
    /// already, more than half as many.
    pub fn is_long(&self, process: u32, is_held_back: bool) -> bool {
        match self.leads.get(process as usize) {
            Some(lead) => are_too_many(lead.bytes(), self.most, is_held_back),
            None => false,
        }
    }

    /// Counts bytes of lines that a process posts.
    pub fn add(&self, process: u32, bytes: usize) {
        let Some(lead) = self.leads.get(process as usize) else {
            return;
        };
        lead.add(bytes);
    }

    /// Counts bytes of lines of a process that were taken off the board.
    pub fn take(&self, process: u32, bytes: usize) {
        let Some(lead) = self.leads.get(process as usize) else {
            return;
        };
        lead.take(bytes);
    }

    /// Keeps `kept` of the bytes of a process that were taken, and subtracts the others, which were
    /// written. Returns whether the lead fell to half of what may wait at this call: the worker of
    /// the process may wait for that at its bell.
    pub fn keep(&self, process: u32, kept: usize) -> bool {
        let Some(lead) = self.leads.get(process as usize) else {
            return false;
        };
        let (before, gone) = lead.keep(kept);
        falls_to_half(before, gone, self.most)
    }
}
