//! Bells and flags.

ghost use Rattle.std.specs.Prelude.{◌≡◌, IfOk, IfSome, length};
ghost use Rattle.dv_work.specs.Flags.{IsOfFlag};

use crossbeam_utils::CachePadded;
use crossbeam_utils::sync::EventCount;
use std::alloc::{AllocError, Global};
use std::hint::spin_loop;
use std::sync::atomic::{AtomicU64, Ordering};
use std::sync::{OnceLock, OnceToken, Wait};
use std::thread::yield_now;

// A waiting thread first looks this often, which takes about a microsecond: a process on another
// processor often answers within that time.
const LOOKS_AT_ONCE: u32 = 1_024;

// Then it looks this often, and yields the processor after each look, before it sleeps. This takes
// longer than to fall asleep and be woken, but a worker also posts before it sleeps, and others
// wait for it when it wakes.
const LOOKS_BETWEEN_OTHERS: u32 = 400;

/// A bell, at which a thread waits for work.
///
/// It counts its rings, so that no ring between a look for work and the wait is lost: the waiting
/// thread reads the count, looks for work, and waits only while the count is the one that it read.
/// A thread that has work for it provides the work first and rings afterwards. There is no lock. If
/// no thread sleeps, a ring is one step on an atomic count.
#[derive(Drop)]
pub struct Bell {
    // Bells lie side by side, and each is rung by other threads.
    rings: CachePadded<AtomicU64>,
    sleepers: EventCount,
}

impl Bell {
    /// A bell that has not rung.
    pub fn new() -> Bell {
        Bell {
            rings: CachePadded::new(AtomicU64::new(0)),
            sleepers: EventCount::new(),
        }
    }

    /// Counts a ring, and wakes all threads that wait.
    pub fn ring(&self) {
        self.rings.fetch_add(1, Ordering::SeqCst);
        self.sleepers.notify_all();
    }

    /// How often it rang, modulo 2^64. A thread reads this before it looks for work.
    pub fn rings(&self) -> u64 {
        self.rings.load(Ordering::SeqCst)
    }

    /// Waits a moment, without sleep, for the count to differ from `seen`. Returns whether it does.
    pub fn rings_soon(&self, seen: u64) -> bool {
        for look in 0..LOOKS_AT_ONCE + LOOKS_BETWEEN_OTHERS {
            if self.rings() != seen {
                return true;
            }
            if look < LOOKS_AT_ONCE {
                spin_loop();
            } else {
                yield_now();
            }
        }
        false
    }

    /// Sleeps until the count differs from `seen`; returns at once if it differs already.
    pub fn wait_past<R: Wait>(&self, rt: &R, seen: u64) {
        // A ring counts before it wakes, so a ring that this look misses ends the wait.
        let wait = self.sleepers.prepare_wait();
        if self.rings() == seen {
            wait.wait(rt);
        }
    }
}

/// Makes a bell for each of `workers` workers.
///
/// # Errors
///
/// No memory for the list.
pub fn bells_of(alloc: Global, workers: usize) -> Result<Vec<Bell>, AllocError>
    ensures { IfOk result (λ bells. length bells.items ≡ workers) }
{
    let mut bells = Vec::with_capacity(alloc, workers)?;
    for _worker in 0..workers {
        bells.push(Bell::new())?;
    }
    Ok(bells)
}

/// A flag that other threads look at. Once it is raised, it stays raised.
#[derive(Drop)]
pub struct Flag {
    raised: OnceLock<()>,
}

/// A token that shows that a flag was raised. Only a look at a raised flag gives one. It takes no
/// memory.
#[derive(Drop)]
pub struct Raised<'a> {
    token: OnceToken<'a, ()>,
}

/// A view of a flag, which can't raise it.
#[derive(Clone, Copy)]
pub struct FlagView<'a> {
    flag: &'a Flag,
}

impl Flag {
    /// A flag that is not raised.
    pub fn new() -> Flag {
        Flag {
            raised: OnceLock::new(),
        }
    }

    /// A view of the flag, which can't raise it.
    pub fn view(&self) -> FlagView<'_>
        ensures { result.flag.now ≡ self.now }
    {
        FlagView { flag: self }
    }

    /// The token that the flag was raised, or `None` if it was not.
    pub fn raised(&self) -> Option<Raised<'_>>
        ensures { IfSome result (IsOfFlag self.now) }
    {
        let token = self.raised.witness()?;
        Some(Raised { token })
    }

    /// Whether the flag was raised.
    pub fn is_raised(&self) -> bool {
        self.raised().is_some()
    }

    /// Raises the flag, and then rings these bells.
    pub fn raise<R: Wait>(&self, rt: &R, bells: &[Bell]) {
        // An error says that the flag was raised before.
        let _ = self.raised.set(rt, ());
        for bell in bells {
            bell.ring();
        }
    }
}

impl<'a> FlagView<'a> {
    /// The token that the flag was raised, or `None` if it was not.
    pub fn raised(&self) -> Option<Raised<'a>>
        ensures { IfSome result (IsOfFlag self.now.flag.now) }
    {
        let flag = self.flag;
        flag.raised()
    }

    /// Whether the flag was raised.
    pub fn is_raised(&self) -> bool {
        self.flag.is_raised()
    }
}
