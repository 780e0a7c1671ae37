//! Requests for room on links.

ghost use Rattle.std.specs.Prelude.{◌≡◌, IfOk, length};

use std::alloc::{AllocError, Global};
use std::sync::atomic::{AtomicBool, Ordering};

/// Whether the sender of a link waits for room on it.
///
/// A sender that finds its link full asks for room and tries once more. Either this try finds room,
/// or the receiver that makes room afterwards finds that it was asked for.
#[derive(Drop)]
pub struct Room {
    is_wanted: AtomicBool,
}

impl Room {
    /// A link on which room was not asked for.
    pub fn new() -> Room {
        Room {
            is_wanted: AtomicBool::new(false),
        }
    }

    /// Asks for room.
    pub fn ask(&self) {
        self.is_wanted.store(true, Ordering::SeqCst);
    }

    /// Whether room was asked for since the last call. If not, nothing is written, so the two ends
    /// of a link that is never full only read here.
    pub fn was_asked_for(&self) -> bool {
        self.is_wanted.load(Ordering::SeqCst) && self.is_wanted.swap(false, Ordering::SeqCst)
    }
}

/// Makes a `Room` for each of so many links.
///
/// # Errors
///
/// No memory for the list.
pub fn rooms_of(alloc: Global, links: usize) -> Result<Vec<Room>, AllocError>
    ensures { IfOk result (λ rooms. length rooms.items ≡ links) }
{
    let mut rooms = Vec::with_capacity(alloc, links)?;
    for _link in 0..links {
        rooms.push(Room::new())?;
    }
    Ok(rooms)
}
