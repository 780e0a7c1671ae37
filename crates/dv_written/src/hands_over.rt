//! Records out of which parts are moved.

ghost use Rattle.std.specs.Prelude.{◌≡◌};
ghost use Rattle.dv_bag.specs.Part.{joined};
ghost use Rattle.dv_written.specs.Rest.{rest_length};

use crate::job::OfJob;
use crate::part::WrittenPart;
use dv_record::Record;
use std::alloc::Global;

/// A record that keeps entries as lines. What it was told is moved out part by part while the run
/// goes on.
pub trait HandsOver<N: OfJob>: Record {
    /// The length in bytes of all lines that were not moved out yet.
    fn rest_length(&self) -> usize
        ensures { result ≡ rest_length N.line (Self.handed self.now).past (Self.told self.now) };

    /// Moves out what was told since the last call. All that was told has to be settled.
    fn hand_over(&mut self, alloc: Global) -> WrittenPart<N>
        requires { Self.settled self.old ≡ Self.told self.old }
        ensures part { Self.told self.old ≡ joined (Self.handed self.old).past result }
        ensures told { Self.told self.new ≡ Self.told self.old }
        ensures settled { Self.settled self.new ≡ Self.settled self.old }
        ensures handed { Self.handed self.new
            ≡ record (Self.handed self.old) { past = Self.told self.old } };
}
