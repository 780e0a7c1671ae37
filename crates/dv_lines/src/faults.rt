//! Records that know of faults.

ghost use Rattle.std.specs.Prelude.{◌≡◌};
ghost use Rattle.dv_written.specs.Faults.{has_fault};

use dv_record::Record;

/// A record that knows whether it was told of a fault.
pub trait KnowsFaults: Record {
    /// Whether the record was told of a fault.
    fn has_fault(&self) -> bool
        ensures { result ≡ has_fault (Self.told self.now) };
}
